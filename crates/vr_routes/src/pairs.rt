//! The places of the two nodes of a pair.

ghost use Rattle.std.specs.Prelude.{◌≡◌, ◌<◌, ◌≤◌, false, length, MatchOption};
ghost use Rattle.vr_model.specs.routes.Routes.{route};
ghost use Rattle.vr_model.specs.tables.Tables.{pair_at};
ghost use Rattle.vr_model.specs.moves.Moves.{is_pair_inactive, is_pair_together, without_pair};
ghost use Rattle.vr_model.specs.declared.records.Pair.{Pair as Paired};
ghost use Rattle.vr_routes.specs.Pairs.{are_together, ArePairPlaces, is_elsewhere};

use crate::routes::Routes;
use vr_model::{Model, Pair};

/// The places of the nodes of a pair, both in one list.
#[derive(Clone, Copy, Debug, PartialEq, Eq)]
pub struct PairPlaces {
    /// The vehicle whose list they are in.
    pub vehicle: u32,
    /// The place of the pickup there.
    pub pickup: u32,
    /// The place of the delivery there.
    pub delivery: u32,
}

/// Pair `p` of a model, whose nodes are in one list.
#[derive(Clone, Copy)]
pub struct Standing<'m, 'r> {
    pub model: &'m Model,
    pub routes: &'r Routes,
    pub p: u32,
    pub at: PairPlaces,
    /// There is the pair.
    pub ghost pair: { p < length model.now.pairs },
    /// Its nodes are at these places.
    pub ghost places: { ArePairPlaces routes.now.lists (pair_at model.now p) at.vehicle at.pickup at.delivery },
}

/// Such a pair that is served: its pickup comes first.
#[derive(Clone, Copy)]
pub struct Served<'m, 'r> {
    pub on: Standing<'m, 'r>,
    /// The delivery comes after it.
    pub ghost order: { on.at.pickup < on.at.delivery },
}

/// The places of the nodes of a pair, `None` if they are not in one list.
#[inline]
pub fn pair_places(routes: &Routes, pair: Pair) -> Option<PairPlaces>
    ensures { MatchOption result (are_together routes.now.lists pair.pickup pair.delivery ≡ false)
        (λ at. ArePairPlaces routes.now.lists pair at.vehicle at.pickup at.delivery) }
{
    routes.know_once();
    match routes.seat(pair.pickup) {
        None => None,
        Some(first) => match routes.seat(pair.delivery) {
            None => None,
            Some(second) => {
                if first.vehicle != second.vehicle {
                    return None;
                }
                Some(PairPlaces {
                    vehicle: first.vehicle,
                    pickup: first.place,
                    delivery: second.place,
                })
            }
        },
    }
}

/// Whether neither node of a pair is active.
#[inline]
pub fn is_pair_inactive(model: &Model, routes: &Routes, p: u32) -> bool
    requires pair { p < length model.now.pairs }
    ensures { result ≡ is_pair_inactive model.now routes.now.lists p }
{
    let pair = model.pairs.get(p as usize);
    !routes.is_active(pair.pickup) && !routes.is_active(pair.delivery)
}

/// Whether both nodes of a pair are in one list, whichever comes first: so it may be taken out.
#[inline]
pub fn is_pair_together(model: &Model, routes: &Routes, p: u32) -> bool
    requires pair { p < length model.now.pairs }
    ensures { result ≡ is_pair_together model.now routes.now.lists p }
{
    match pair_places(routes, *model.pairs.get(p as usize)) {
        None => false,
        Some(_at) => true,
    }
}

/// How many nodes the list of `w` has without those of a pair that is served.
#[inline]
pub fn rest_len(routes: &Routes, at: PairPlaces, w: u32) -> u32
    requires vehicle { w < length routes.now.lists }
    requires order { at.pickup < at.delivery }
    requires place { at.delivery < length (route routes.now.lists at.vehicle) }
    ensures rest { (pair : Paired) → ArePairPlaces routes.now.lists pair at.vehicle at.pickup at.delivery
        → result ≡ length (without_pair pair (route routes.now.lists w)) }
    ensures few { result ≤ 1000 }
{
    routes.know_once();
    let n = routes.len(w);
    if w == at.vehicle {
        return n - 2;
    }
    n
}

/// Whether a pair is elsewhere than now with its pickup before place `s` of the rest of `w`, and its delivery before
/// place `t`. The rest does not count the pickup, so now the delivery is before place `delivery - 1` of it.
#[inline]
pub fn is_elsewhere(at: PairPlaces, w: u32, s: u32, t: u32) -> bool
    requires order { at.pickup < at.delivery }
    ensures { result ≡ is_elsewhere at.vehicle at.pickup at.delivery w s t }
{
    !(w == at.vehicle && (s == at.pickup && t == at.delivery - 1))
}
