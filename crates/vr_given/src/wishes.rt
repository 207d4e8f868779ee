//! The table of what is asked of a refining search.

ghost use Rattle.vr_given.specs.Givens as givens;

use vr_json::{Count, Datum, Fields, ReadFail, Reader, Table, Whole};

/// What is asked of a search that takes visits out of routes and puts them back.
#[derive(Clone, Copy)]
pub struct Wish {
    /// The number with which its row of random words begins, 0 to 2^63 - 1.
    pub seed: u64,
    /// About how many visits a step takes out, 1 to 100.
    pub removed: u32,
    /// How many visits of one route it takes out at most, 1 to 100.
    pub string: u32,
    /// How much more the lists of a step may cost at first and still be kept, 0 to 2^40; `None` if the search is to
    /// choose it.
    pub heat: Option<u64>,
}

/// A whole number from 0 to `most`.
#[derive(Clone, Copy)]
pub struct Natural {
    pub most: i64,
}

#[tactic(auto, unfolding(vr_json::specs::Reading::and_then, crate::specs::Givens::natural))]
impl Reader for Natural {
    type Item = u64;

    ghost reads = { λ it earlier path d. givens.natural it.most path d };

    fn read(&self, _earlier: &[Self::Item], datum: Datum<'_, '_>) -> Result<Self::Item, ReadFail> {
        let range = Whole {
            lo: 0,
            hi: self.most,
        };
        let number = range.read(&[], datum)?;
        Ok(number as u64)
    }
}

/// Reads a wish. Each of its fields may be absent.
#[derive(Clone, Copy)]
pub struct WishTable;

// How many visits a step takes out, and of one route at most, if an input does not say it.
const USUAL: u32 = 10;

// The greatest number of either.
const MOST: u32 = 100;

// The greatest heat, 2^40.
const GREATEST_HEAT: i64 = 1_099_511_627_776;

#[tactic(auto, unfolding(vr_json::specs::Reading::and_then, crate::specs::Givens::wish))]
impl Table for WishTable {
    type Row = Wish;

    ghost reads = { λ it earlier path d. givens.wish path d };

    fn read(&self, _earlier: &[Self::Row], fields: Fields<'_, '_>) -> Result<Self::Row, ReadFail> {
        let seeds = Natural { most: i64::MAX };
        let count = Count { lo: 1, hi: MOST };
        let heats = Natural {
            most: GREATEST_HEAT,
        };
        let seed = fields.optional("seed", 0, &seeds)?;
        let removed = fields.optional("removed", USUAL, &count)?;
        let string = fields.optional("string", USUAL, &count)?;
        let heat = fields.maybe("heat", &heats)?;
        fields.known(&["seed", "removed", "string", "heat"])?;
        Ok(Wish {
            seed,
            removed,
            string,
            heat,
        })
    }
}
