//! How early the lists after a change can end and how short their spans can be, worked out once for all that ask.

ghost use Rattle.std.specs.Prelude.{◌≡◌, ◌<◌, length, slice_set};
ghost use Rattle.vr_earliest.specs.Earlies.{early_at};

use std::marker::Model;

/// What the chosen schedule of a list comes to at least.
#[derive(Clone, Copy)]
pub struct Early {
    /// It ends no earlier, in `0..=2^36`.
    pub last: i64,
    /// Its span is no less, in `-2^36..=2^36`.
    pub span: i64,
}

/// What the chosen schedules of the lists after a change come to at least, in each dimension in which anything is paid
/// for spans. It is room that is written over for each change, and takes no memory. Contracts see what it has in each
/// dimension of each list.
///
/// It says nothing of the other dimensions, nor of a second part that a change does not have. What it says of an empty
/// list is read by no one: a vehicle that is not used pays for no span.
#[derive(Drop)]
pub struct Earlies {
    // of each dimension, of each part of a change
    rows: [[Early; 2]; 4],
}

impl Model for Earlies {
    ghost use Rattle.std.specs.Prelude.{List};
    ghost use Rattle.vr_earliest.specs.declared.earlies.Early.{Early as EarlyOf};

    ghost Value = { List (List EarlyOf) };

    ghost view = { λ earlies. earlies.rows };
}

impl Earlies {
    /// Room for any change of any model.
    pub fn new() -> Earlies {
        Earlies {
            rows: [[Early { last: 0, span: 0 }; 2]; 4],
        }
    }

    /// What is known in dimension `d` of the new list of part `k` of the change.
    #[inline]
    pub fn at(&self, d: u32, k: usize) -> Early
        requires dimension { d < 4 }
        requires part { k < 2 }
        ensures { result ≡ early_at self.now d k }
    {
        self.rows[d as usize][k]
    }

    /// Writes what is known in dimension `d` of each list.
    #[inline]
    pub fn set(&mut self, d: usize, row: [Early; 2])
        requires dimension { d < 4 }
        ensures row { self.new ≡ slice_set self.old d row }
        ensures many { length self.new ≡ 4 }
    {
        self.rows[d] = row;
    }
}
