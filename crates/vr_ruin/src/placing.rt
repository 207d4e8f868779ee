//! Insertions of an item into one route, and which of two comes first.

ghost use Rattle.std.specs.Prelude.{◌≡◌, ◌≤◌, ◌≤ℤ◌, ◌+ℤ◌, ◌^◌, ℤ, IsTrue, None, OnOk, length, map, neg_ℤ, pos};
ghost use Rattle.vr_model.specs.tables.Limits.{most_nodes};
ghost use Rattle.vr_model.specs.tables.Numbers.{is_lex_less};
ghost use Rattle.vr_rules.specs.Placing.{improves as improves_by};
ghost use Rattle.vr_ruin.specs.Placings.{bound_for, item_in, key_of, no_more_than, placed as placed_of, places_in};
ghost use Rattle.vr_ruin.specs.Placings.{AreWithin, IsAbove};

use vr_model::{NoMemory, Seq};
use vr_rules::Item;

/// An item at its places in a list, which are counted in the list without it.
#[derive(Clone, Copy)]
pub(crate) enum Placing {
    /// A visit, and the place that it is put before.
    One(u32, u32),
    /// A pickup and its delivery, and the places that they are put before.
    Two(u32, u32, u32, u32),
}

/// An item at its places in the list of a vehicle, and what it adds to the arc costs there.
#[derive(Clone, Copy)]
pub(crate) struct Offer {
    pub(crate) placing: Placing,
    pub(crate) vehicle: u32,
    pub(crate) increase: i64,
}

impl Placing {
    /// The item that is placed.
    pub(crate) fn item(self) -> Item
        ensures { result ≡ item_in self }
    {
        match self {
            Placing::One(node, _) => Item::Visit(node),
            Placing::Two(pickup, delivery, _, _) => Item::PickupAndDelivery(pickup, delivery),
        }
    }
}

// Whether places come before others in lexicographic order.
fn places_before(one: Placing, other: Placing) -> bool
    ensures { result ≡ is_lex_less (map pos (places_in one)) (map pos (places_in other)) }
{
    match (one, other) {
        (Placing::One(_, t), Placing::One(_, u)) => t < u,
        // a visit and a pair do not come here: offers of one item are compared
        (Placing::One(_, t), Placing::Two(_, _, s, _)) => t <= s,
        (Placing::Two(_, _, s, _), Placing::One(_, t)) => s < t,
        (Placing::Two(_, _, s, t), Placing::Two(_, _, r, u)) => s < r || (s <= r && t < u),
    }
}

// Whether an offer comes before another of the same vehicle: by what it adds, then by its places.
fn comes_before(one: Offer, other: Offer) -> bool
    ensures { result ≡ is_lex_less (key_of one) (key_of other) }
{
    one.increase < other.increase
        || (one.increase <= other.increase && places_before(one.placing, other.placing))
}

/// Whether an offer is better than the best so far, or the first.
pub(crate) fn improves(best: Option<Offer>, next: Offer) -> bool
    ensures { result ≡ improves_by key_of best next }
{
    match best {
        Some(best) => comes_before(next, best),
        None => true,
    }
}

/// Offers that add more than this need not be looked at: what the best one so far adds, or else the limit. `None` if
/// there is neither.
pub(crate) fn bound_of(best: Option<Offer>, limit: Option<i64>) -> Option<i64>
    ensures { result ≡ bound_for best limit }
{
    match best {
        Some(best) => Some(best.increase),
        None => limit,
    }
}

/// What a delivery adds at most so that a pair is no worse than the best offer so far, if its pickup adds this much
/// alone. `None` if that is not known.
pub(crate) fn bound_beside(best: Option<Offer>, alone: i64) -> Option<i64>
    requires low { neg_ℤ (pos (2 ^ 40)) ≤ℤ alone }
    requires high { alone ≤ℤ pos (2 ^ 41) }
    ensures { (x : ℤ) → IsAbove result x → IsAbove (bound_for best None) (alone +ℤ x) }
{
    match best {
        Some(best) if is_near(best.increase) => Some(best.increase - alone),
        _ => None,
    }
}

// Whether a number is far from the ends of 64 bits.
fn is_near(x: i64) -> bool
    ensures low { IsTrue result → neg_ℤ (pos (2 ^ 60)) ≤ℤ x }
    ensures high { IsTrue result → x ≤ℤ pos (2 ^ 60) }
{
    x >= -(1 << 60) && x <= 1 << 60
}

/// An offer, if it adds no more than a limit.
pub(crate) fn within_limit(best: Option<Offer>, limit: Option<i64>) -> Option<Offer>
    ensures { result ≡ no_more_than limit best }
{
    let best = best?;
    match limit {
        Some(limit) if best.increase > limit => None,
        _ => Some(best),
    }
}

/// Writes the list with an item placed in it over another list.
pub(crate) fn write_placed(
    list: &[u32],
    placing: Placing,
    longer: &mut Seq<u32>,
) -> Result<(), NoMemory>
    requires within { AreWithin list.now placing }
    requires few { length list.now ≤ most_nodes }
    ensures { OnOk result (longer.new ≡ placed_of list.now placing) }
{
    longer.truncate(0);
    match placing {
        Placing::One(node, t) => {
            longer.extend_from_slice(&list[..t as usize])?;
            longer.push(node)?;
            longer.extend_from_slice(&list[t as usize..])?;
        }
        Placing::Two(pickup, delivery, s, t) => {
            longer.extend_from_slice(&list[..s as usize])?;
            longer.push(pickup)?;
            longer.extend_from_slice(&list[s as usize..t as usize])?;
            longer.push(delivery)?;
            longer.extend_from_slice(&list[t as usize..])?;
        }
    }
    Ok(())
}
