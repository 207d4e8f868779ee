//! Lower bounds of what an item adds to a list: no place does better. `known_best` asks the least of a visit or a pair
//! before it has a list searched. `one_list` asks the others while it goes through places.

ghost use Rattle.std.specs.Prelude.{◌≡◌, ℕ, ◌<◌, ◌≤◌, ◌^◌, OnOk, cond, int_lt, length, neg_ℤ, pos, ◌+ℤ◌, ◌≤ℤ◌};
ghost use Rattle.vr_first_insert.specs.Increases.{pair_increase as pair_increase_of, IsIncrease};
ghost use Rattle.vr_first_insert.specs.Placings.{AreLeastAhead, IsFirstLeastPlace, VisitAddsAtLeast, IsLeastIncrease};
ghost use Rattle.vr_first_insert.specs.KeptRows.{list_model};

use crate::increase::{pair_increase, visit_increase};
use crate::vehicle_list::LookedUpList;
use vr_model::{NoMemory, Seq};

/// The least that a visit adds to a list.
pub(crate) fn least_visit(list: &LookedUpList<'_, '_, '_>, node: u32) -> i64
    requires { node < (list_model list.now).nodes }
    ensures least { VisitAddsAtLeast (list_model list.now) list.now.vehicle list.now.nodes.now node result }
    ensures low { neg_ℤ (pos (2 ^ 40)) ≤ℤ result }
    ensures high { result ≤ℤ pos (2 ^ 41) }
{
    let mut least = visit_increase(list, node, 0);
    for t in 1..list.nodes.len() + 1 {
        least = least.min(visit_increase(list, node, t));
    }
    least
}

/// A place, and what a visit adds before it.
#[derive(Clone, Copy)]
pub(crate) struct Cheapest {
    pub(crate) place: usize,
    pub(crate) least: i64,
}

// The cheaper of two places, the first of equal ones.
fn cheaper(at: Cheapest, t: usize, next: i64) -> Cheapest
    ensures { result ≡ cond (int_lt next at.least) (record { place = t; least = next }) at }
{
    if next < at.least {
        Cheapest {
            place: t,
            least: next,
        }
    } else {
        at
    }
}

/// The first of the places of a list before which a visit adds least.
pub(crate) fn least_place(list: &LookedUpList<'_, '_, '_>, node: u32) -> usize
    requires { node < (list_model list.now).nodes }
    ensures { IsFirstLeastPlace (list_model list.now) list.now.vehicle list.now.nodes.now node result }
{
    let mut at = Cheapest {
        place: 0,
        least: visit_increase(list, node, 0),
    };
    for t in 1..list.nodes.len() + 1 {
        at = cheaper(at, t, visit_increase(list, node, t));
    }
    at.place
}

/// Writes the least that a visit adds to a list before its last places: first the last one, then the last two, up to
/// all. Entry `k` is for the last `k + 1` places; the last of these is before the end. For example, a list of two nodes
/// has the places 0, 1 and 2. If the visit adds 5, 3 and 9 before these, the entries are 9, 3 and 3.
pub(crate) fn write_ahead(
    list: &LookedUpList<'_, '_, '_>,
    node: u32,
    ahead: &mut Seq<i64>,
) -> Result<(), NoMemory>
    requires { node < (list_model list.now).nodes }
    ensures { OnOk result (AreLeastAhead (list_model list.now) list.now.vehicle list.now.nodes.now node
        ahead.new) }
{
    ahead.truncate(0);
    let mut least = visit_increase(list, node, list.nodes.len());
    for k in 0..list.nodes.len() + 1 {
        least = least.min(visit_increase(list, node, list.nodes.len() - k));
        ahead.push(least)?;
    }
    Ok(())
}

/// What a pair adds at least, if its pickup alone adds `pickup` and its delivery alone at least `least`.
pub(crate) fn least_apart(pickup: i64, least: i64) -> i64
    requires pickup { IsIncrease pickup }
    requires least { IsIncrease least }
    ensures value { result ≡ (pickup +ℤ least) }
    ensures low { neg_ℤ (pos (2 ^ 41)) ≤ℤ result }
    ensures high { result ≤ℤ pos (2 ^ 42) }
{
    pickup + least
}

/// What a pair adds at least with its pickup before place `s`. The delivery alone adds at least `least`.
pub(crate) fn least_behind(
    list: &LookedUpList<'_, '_, '_>,
    pickup: u32,
    delivery: u32,
    s: usize,
    least: i64,
) -> i64
    requires pickup { pickup < (list_model list.now).nodes }
    requires delivery { delivery < (list_model list.now).nodes }
    requires within { s ≤ length list.now.nodes.now }
    requires least { IsLeastIncrease (list_model list.now) list.now.vehicle list.now.nodes.now delivery least }
    ensures least { (t : ℕ) → t ≤ length list.now.nodes.now
        → result ≤ℤ pair_increase_of (list_model list.now) list.now.vehicle list.now.nodes.now
        pickup delivery s t }
    ensures low { neg_ℤ (pos (2 ^ 41)) ≤ℤ result }
    ensures high { result ≤ℤ pos (2 ^ 42) }
{
    let together = pair_increase(list, pickup, delivery, s, s);
    let apart = visit_increase(list, pickup, s) + least;
    together.min(apart)
}

/// What a pair adds at least with its pickup before place `s` and its delivery before a later one. The delivery alone
/// adds at least `least`.
pub(crate) fn least_further(
    list: &LookedUpList<'_, '_, '_>,
    pickup: u32,
    s: usize,
    least: i64,
) -> i64
    requires pickup { pickup < (list_model list.now).nodes }
    requires within { s ≤ length list.now.nodes.now }
    requires least { IsIncrease least }
    ensures least { (delivery t : ℕ)
        → VisitAddsAtLeast (list_model list.now) list.now.vehicle list.now.nodes.now delivery least
        → s < t → t ≤ length list.now.nodes.now
        → result ≤ℤ pair_increase_of (list_model list.now) list.now.vehicle list.now.nodes.now
        pickup delivery s t }
    ensures low { neg_ℤ (pos (2 ^ 41)) ≤ℤ result }
    ensures high { result ≤ℤ pos (2 ^ 42) }
{
    visit_increase(list, pickup, s) + least
}

/// What a pair adds at least to a list. A delivery that does not come right after its pickup counts with the least that
/// it adds before any place. So each two places may add more.
pub(crate) fn least_pair(list: &LookedUpList<'_, '_, '_>, pickup: u32, delivery: u32) -> i64
    requires pickup { pickup < (list_model list.now).nodes }
    requires delivery { delivery < (list_model list.now).nodes }
    ensures { (s t : ℕ) → s ≤ length list.now.nodes.now → t ≤ length list.now.nodes.now
        → result ≤ℤ pair_increase_of (list_model list.now) list.now.vehicle list.now.nodes.now
        pickup delivery s t }
{
    let alone = least_visit(list, delivery);
    let mut least = least_behind(list, pickup, delivery, 0, alone);
    for s in 1..list.nodes.len() + 1 {
        least = least.min(least_behind(list, pickup, delivery, s, alone));
    }
    least
}
