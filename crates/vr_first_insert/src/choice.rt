//! Insertions, and which of two comes first.

ghost use Rattle.std.specs.Prelude.{◌≡◌, map, pos};
ghost use Rattle.vr_model.specs.tables.Numbers.{is_lex_less};
ghost use Rattle.vr_rules.specs.Placing.{improves as improves_by};
ghost use Rattle.vr_first_insert.specs.Placings.{item_in, key_of, may_improve as may_improve_by, places_in, tail_key};

use vr_rules::Item;

/// An item at its places in a list, which are counted in the list without it.
#[derive(Clone, Copy)]
pub(crate) enum Placing {
    /// A visit, and the place that it is put before: `One(7, 1)` makes 3 7 4 of the list 3 4.
    One(u32, u32),
    /// A pickup and its delivery, and the places that they are put before: `Two(7, 8, 1, 1)` makes 3 7 8 4 of 3 4, and
    /// `Two(7, 8, 0, 1)` makes 7 3 8 4.
    Two(u32, u32, u32, u32),
}

/// An insertion with its class, its vehicle, and what it adds to the arc costs.
#[derive(Clone, Copy)]
pub(crate) struct InsertionChoice {
    pub(crate) placing: Placing,
    pub(crate) class: u32,
    pub(crate) vehicle: u32,
    pub(crate) increase: i64,
}

impl Placing {
    /// The item that is placed.
    pub(crate) fn item(self) -> Item
        ensures { result ≡ item_in self }
    {
        match self {
            Placing::One(node, _) => Item::Visit(node),
            Placing::Two(pickup, delivery, _, _) => Item::PickupAndDelivery(pickup, delivery),
        }
    }
}

// Whether places come before others in lexicographic order.
fn places_before(one: Placing, other: Placing) -> bool
    ensures { result ≡ is_lex_less (map pos (places_in one)) (map pos (places_in other)) }
{
    match (one, other) {
        (Placing::One(_, t), Placing::One(_, u)) => t < u,
        // a visit and a pair do not come here: they differ in their first nodes, which are compared before
        (Placing::One(_, t), Placing::Two(_, _, s, _)) => t <= s,
        (Placing::Two(_, _, s, _), Placing::One(_, t)) => s < t,
        (Placing::Two(_, _, s, t), Placing::Two(_, _, r, u)) => s < r || (s <= r && t < u),
    }
}

// Whether the item comes before another, then the vehicle, then the places.
fn tail_before(one: InsertionChoice, other: InsertionChoice) -> bool
    ensures { result ≡ is_lex_less (tail_key one) (tail_key other) }
{
    let (number, others) = (one.placing.item().number(), other.placing.item().number());
    number < others
        || (number <= others
            && (one.vehicle < other.vehicle
                || (one.vehicle <= other.vehicle && places_before(one.placing, other.placing))))
}

// Whether a choice comes before another: by class, increase, item, vehicle and places.
fn comes_before(one: InsertionChoice, other: InsertionChoice) -> bool
    ensures { result ≡ is_lex_less (key_of one) (key_of other) }
{
    one.class < other.class
        || (one.class <= other.class
            && (one.increase < other.increase
                || (one.increase <= other.increase && tail_before(one, other))))
}

/// Whether a choice is better than the best so far, or the first.
pub(crate) fn improves(best: Option<InsertionChoice>, next: InsertionChoice) -> bool
    ensures { result ≡ improves_by key_of best next }
{
    match best {
        Some(best) => comes_before(next, best),
        None => true,
    }
}

/// Whether choices of a class that add at least `least` may be better than the best so far. One that adds as much as
/// the best may be better by item, vehicle or places.
pub(crate) fn may_improve(best: Option<InsertionChoice>, class: u32, least: i64) -> bool
    ensures { result ≡ may_improve_by best class least }
{
    match best {
        Some(best) => class < best.class || (class <= best.class && least <= best.increase),
        None => true,
    }
}
