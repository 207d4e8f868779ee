//! Whether the numbers of a move meet the condition of its neighbourhood.

ghost use Rattle.std.specs.Prelude.{◌≡◌, ◌+◌, ◌-◌, ◌<◌, ◌&&◌, true, false, nat_lt, nat_le, length, IfSome, MatchOption};
ghost use Rattle.vr_model.specs.moves.Moves.{is_other, is_pair_served};
ghost use Rattle.vr_model.specs.tables.Tables.{pair_at, visits};
ghost use Rattle.vr_routes.specs.Pairs.{ArePairPlaces};
ghost use Rattle.vr_model.specs.moves.MoveTests.{is_inactive, is_move};
ghost use Rattle.vr_model.specs.declared.records.Model.{Model as Defined};
ghost use Rattle.vr_model.specs.declared.neighbours.Move.TheVariants.{TwoOpt, OrOpt, Relocate, Exchange, Cross};
ghost use Rattle.vr_model.specs.declared.neighbours.Move.TheVariants.{MakeActive, MakeInactive, SwapActive};
ghost use Rattle.vr_model.specs.declared.neighbours.Move.TheVariants.{PairActive, PairInactive, RelocatePair};

use crate::pairs::{
    PairPlaces, Served, Standing, is_elsewhere, is_pair_inactive, pair_places, rest_len,
};
use crate::routes::Routes;
use vr_model::{Model, Move};

/// Whether a move is one of the lists. `Change::of_into` alone asks it, so no search does: its moves are listed as
/// such.
#[inline]
pub fn is_move(model: &Model, routes: &Routes, mv: Move) -> bool
    requires of_model { routes.now.visits ≡ visits model.now }
    ensures { result ≡ is_move model.now routes.now.lists mv }
{
    match mv {
        Move::TwoOpt { v, a, b } => is_two_opt(routes, v, a, b),
        Move::OrOpt { v, a, k, t } => is_or_opt(routes, v, a, k, t),
        Move::Relocate { v, a, w, t } => is_relocate(routes, v, a, w, t),
        Move::Exchange { v, a, w, b } => is_exchange(routes, v, a, w, b),
        Move::Cross { v, a, w, b } => is_cross(routes, v, a, w, b),
        Move::MakeInactive { v, a } => is_make_inactive(routes, v, a),
        Move::MakeActive { u, w, t } => is_make_active(routes, u, w, t),
        Move::SwapActive { v, a, u } => is_swap_active(routes, v, a, u),
        Move::PairActive { p, w, s, t } => is_pair_active(model, routes, p, w, s, t),
        Move::PairInactive { p } => is_made_inactive(model, routes, p),
        Move::RelocatePair { p, w, s, t } => is_relocate_pair(model, routes, p, w, s, t),
    }
}

#[inline]
fn is_two_opt(routes: &Routes, v: u32, a: u32, b: u32) -> bool
    ensures { (model : Defined) → result ≡ is_move model routes.now.lists (TwoOpt v a b) }
{
    v < routes.vehicles() && (a < b && b < routes.len(v))
}

#[inline]
fn is_or_opt(routes: &Routes, v: u32, a: u32, k: u32, t: u32) -> bool
    ensures { (model : Defined) → result ≡ is_move model routes.now.lists (OrOpt v a k t) }
{
    v < routes.vehicles() && ((1 <= k && k <= 3) && is_chain_moved(routes.len(v), a, k, t))
}

// A list of `n` nodes has `k` from place `a` on, and place `t` of the rest is another one, before which they can go.
#[inline]
fn is_chain_moved(n: u32, a: u32, k: u32, t: u32) -> bool
    ensures { result ≡ (nat_le (a + k) n && (nat_le t (n - k) && is_other a t)) }
{
    a as u64 + k as u64 <= n as u64 && (t <= n - k && a != t)
}

#[inline]
fn is_relocate(routes: &Routes, v: u32, a: u32, w: u32, t: u32) -> bool
    ensures { (model : Defined) → result ≡ is_move model routes.now.lists (Relocate v a w t) }
{
    let vehicles = routes.vehicles();
    v < vehicles && (w < vehicles && (v != w && (a < routes.len(v) && t <= routes.len(w))))
}

// Each two nodes come once: the vehicle of the first comes first, or both are in one list and its place does.
#[inline]
fn is_exchange(routes: &Routes, v: u32, a: u32, w: u32, b: u32) -> bool
    ensures { (model : Defined) → result ≡ is_move model routes.now.lists (Exchange v a w b) }
{
    let vehicles = routes.vehicles();
    v < vehicles
        && (w < vehicles
            && (a < routes.len(v) && (b < routes.len(w) && (v < w || (v == w && a < b)))))
}

// Each two vehicles come once, and not both fronts are empty, which would change nothing.
#[inline]
fn is_cross(routes: &Routes, v: u32, a: u32, w: u32, b: u32) -> bool
    ensures { (model : Defined) → result ≡ is_move model routes.now.lists (Cross v a w b) }
{
    w < routes.vehicles()
        && (v < w && (a <= routes.len(v) && (b <= routes.len(w) && !(a == 0 && b == 0))))
}

#[inline]
fn is_make_inactive(routes: &Routes, v: u32, a: u32) -> bool
    ensures { (model : Defined) → result ≡ is_move model routes.now.lists (MakeInactive v a) }
{
    v < routes.vehicles() && a < routes.len(v)
}

// Whether a node is a visit in no list.
#[inline]
fn is_inactive(routes: &Routes, u: u32) -> bool
    ensures { (model : Defined) → routes.now.visits ≡ visits model → result ≡ is_inactive model routes.now.lists u }
{
    routes.is_inactive(u)
}

#[inline]
fn is_make_active(routes: &Routes, u: u32, w: u32, t: u32) -> bool
    ensures { (model : Defined) → routes.now.visits ≡ visits model
        → result ≡ is_move model routes.now.lists (MakeActive u w t) }
{
    is_inactive(routes, u) && (w < routes.vehicles() && t <= routes.len(w))
}

#[inline]
fn is_swap_active(routes: &Routes, v: u32, a: u32, u: u32) -> bool
    ensures { (model : Defined) → routes.now.visits ≡ visits model
        → result ≡ is_move model routes.now.lists (SwapActive v a u) }
{
    v < routes.vehicles() && (a < routes.len(v) && is_inactive(routes, u))
}

#[inline]
fn is_pair_active(model: &Model, routes: &Routes, p: u32, w: u32, s: u32, t: u32) -> bool
    ensures { result ≡ is_move model.now routes.now.lists (PairActive p w s t) }
{
    (p as usize) < model.pairs.len()
        && (is_pair_inactive(model, routes, p)
            && (w < routes.vehicles() && (s <= t && t <= routes.len(w))))
}

// Whether the nodes of a pair are in one list.
#[inline]
fn is_made_inactive(model: &Model, routes: &Routes, p: u32) -> bool
    ensures { result ≡ is_move model.now routes.now.lists (PairInactive p) }
{
    pair_together(model, routes, p).is_some()
}

/// The places of pair `p`, `None` if there is no such pair or its nodes are not in one list.
#[inline]
pub fn pair_together(model: &Model, routes: &Routes, p: u32) -> Option<PairPlaces>
    ensures answer { let is_one = is_move model.now routes.now.lists (PairInactive p) in
        MatchOption result (is_one ≡ false) (λ at. is_one ≡ true) }
    ensures pair { IfSome result (λ at. p < length model.now.pairs) }
    ensures places { let pair = pair_at model.now p in
        IfSome result (λ at. ArePairPlaces routes.now.lists pair at.vehicle at.pickup at.delivery) }
{
    if p as usize >= model.pairs.len() {
        return None;
    }
    pair_places(routes, *model.pairs.get(p as usize))
}

/// The places of pair `p`, `None` if there is no such pair or it is not served.
#[inline]
pub fn pair_served(model: &Model, routes: &Routes, p: u32) -> Option<PairPlaces>
    ensures answer { let served = is_pair_served model.now routes.now.lists p in
        MatchOption result ((nat_lt p (length model.now.pairs) && served) ≡ false) (λ at. served ≡ true) }
    ensures pair { IfSome result (λ at. p < length model.now.pairs) }
    ensures places { let pair = pair_at model.now p in
        IfSome result (λ at. ArePairPlaces routes.now.lists pair at.vehicle at.pickup at.delivery) }
    ensures order { IfSome result (λ at. at.pickup < at.delivery) }
{
    routes.know_once();
    match pair_together(model, routes, p) {
        None => None,
        Some(at) => {
            if at.delivery <= at.pickup {
                return None;
            }
            Some(at)
        }
    }
}

#[inline]
fn is_relocate_pair(model: &Model, routes: &Routes, p: u32, w: u32, s: u32, t: u32) -> bool
    ensures { result ≡ is_move model.now routes.now.lists (RelocatePair p w s t) }
{
    match pair_served(model, routes, p) {
        None => false,
        Some(at) => {
            let on = Standing {
                model,
                routes,
                p,
                at,
            };
            let served = Served { on };
            is_put_elsewhere(served, w, s, t)
        }
    }
}

// Whether a pair that is served may be put into the list of `w`. Its pickup goes before place `s` of what that list is
// without the pair, and its delivery before place `t`. There must be such places, and they must not be those of now.
#[inline]
fn is_put_elsewhere(served: Served<'_, '_>, w: u32, s: u32, t: u32) -> bool
    ensures { let on = served.entry.on in result ≡ is_move on.model.now on.routes.now.lists (RelocatePair on.p w s t) }
{
    let at = served.on.at;
    let routes = served.on.routes;
    routes.know_once();
    if w >= routes.vehicles() {
        return false;
    }
    if t < s {
        return false;
    }
    if t > rest_len(routes, at, w) {
        return false;
    }
    is_elsewhere(at, w, s, t)
}
