//! The lists after the moves of each kind, as splices of the lists before.

ghost use Rattle.std.specs.Prelude.{◌≡◌, ℕ, ◌+◌, ◌-◌, ◌<◌, ◌≤◌, ◌≢◌, suc, List, ◌∷◌, ◌++◌, length};
ghost use Rattle.std.specs.Prelude.{take, drop, slice_range, slice_set};
ghost use Rattle.vr_model.specs.routes.Routes.{route};
ghost use Rattle.vr_model.specs.tables.Tables.{pair_at};
ghost use Rattle.vr_model.specs.moves.Moves.{reversed_between, chain_moved, node_at, with_pair, without_pair};
ghost use Rattle.vr_routes.specs.Changes.{IsAfter, IsPartBegun};
ghost use Rattle.vr_routes.specs.Pairs.{cuts_before, is_past, without_two};
ghost use Rattle.vr_routes.specs.Places.{AreNeighbours, AreTwoGaps, AreTwoPlaces, IsStretch};

use crate::pairs::{PairPlaces, Standing};
use crate::pieces::Part;
use crate::routes::Routes;
use vr_model::Pair;

impl Part {
    /// Writes the list of `v` without `nodes` nodes from place `from` on.
    #[inline]
    pub fn take_out(&mut self, routes: &Routes, v: u32, from: u32, nodes: u32)
        requires { IsStretch routes.now.lists v from nodes }
        ensures { let list = route routes.now.lists v in
            IsAfter routes.now.lists self.new v (take from list ++ drop (from + nodes) list) }
    {
        let n = routes.len(v);
        self.begin(v, from);
        self.end(from + nodes, n);
    }

    /// Writes the list of `v` with a node in place of `nodes` nodes from place `from` on. In place of none, it goes in
    /// before that place; of one, it takes its place.
    #[inline]
    pub fn put(&mut self, routes: &Routes, v: u32, from: u32, nodes: u32, node: u32)
        requires { IsStretch routes.now.lists v from nodes }
        ensures { let list = route routes.now.lists v in
            IsAfter routes.now.lists self.new v (take from list ++ node ∷ drop (from + nodes) list) }
    {
        let n = routes.len(v);
        self.begin(v, from);
        self.node(node);
        self.end(from + nodes, n);
    }

    /// Writes the list of `v` with `k` nodes from place `a` on before place `t` of the rest.
    #[inline]
    pub fn move_chain(&mut self, routes: &Routes, v: u32, a: u32, k: u32, t: u32)
        requires chain { IsStretch routes.now.lists v a k }
        requires gap { t + k ≤ length (route routes.now.lists v) }
        ensures { IsAfter routes.now.lists self.new v (chain_moved (route routes.now.lists v) a k t) }
    {
        // That the list is short says that the sums fit.
        let _few = routes.len(v);
        // Place `t` of the rest is place `t` of the list before the chain, and place `t + k` after it. The chain
        // changes places with what lies between.
        if t < a {
            self.swap_neighbours(routes, v, t, a, a + k);
            return;
        }
        self.swap_neighbours(routes, v, a, a + k, t + k);
    }

    /// Writes the list of `v` with two neighbouring stretches in each other's place. The first goes from place `from`
    /// up to place `mid`, the second from there up to place `to`.
    #[inline]
    fn swap_neighbours(&mut self, routes: &Routes, v: u32, from: u32, mid: u32, to: u32)
        requires { AreNeighbours routes.now.lists v from mid to }
        ensures { let list = route routes.now.lists v in
            IsAfter routes.now.lists self.new v (take from list
            ++ ((slice_range list mid to ++ slice_range list from mid) ++ drop to list)) }
    {
        let n = routes.len(v);
        self.begin(v, from);
        self.chain(v, mid, to);
        self.chain(v, from, mid);
        self.end(to, n);
    }

    /// Writes for `v` the front of the list of `w`, up to place `b`, and the end of its own, from place `a` on.
    #[inline]
    pub fn join(&mut self, routes: &Routes, v: u32, a: u32, w: u32, b: u32)
        requires own { IsStretch routes.now.lists v a 0 }
        requires other { IsStretch routes.now.lists w b 0 }
        ensures { let lists = routes.now.lists in
            IsAfter lists self.new v (take b (route lists w) ++ drop a (route lists v)) }
    {
        let n = routes.len(v);
        self.begin(v, 0);
        self.chain(w, 0, b);
        self.end(a, n);
    }

    /// Writes the list of `v` with the pickup of a pair before place `s`, and its delivery before place `t`.
    #[inline]
    pub fn put_pair(&mut self, routes: &Routes, v: u32, s: u32, t: u32, pair: Pair)
        requires { AreTwoGaps routes.now.lists v s t }
        ensures { IsAfter routes.now.lists self.new v (with_pair pair s t (route routes.now.lists v)) }
    {
        let n = routes.len(v);
        self.begin(v, s);
        self.node(pair.pickup);
        self.chain(v, s, t);
        self.node(pair.delivery);
        self.end(t, n);
    }

    /// Writes the list of `v` with the nodes from place `lo` to place `hi`, both included, in reverse order.
    #[inline]
    pub fn reverse(&mut self, routes: &Routes, v: u32, lo: u32, hi: u32)
        requires { AreTwoPlaces routes.now.lists v lo hi }
        ensures { IsAfter routes.now.lists self.new v (reversed_between (route routes.now.lists v) lo (suc hi)) }
    {
        let n = routes.len(v);
        self.begin(v, lo);
        self.reversed(v, lo, hi + 1);
        self.end(hi + 1, n);
    }

    /// Writes the list of `v` with the nodes at two places in each other's place.
    #[inline]
    pub fn swap_two(&mut self, routes: &Routes, v: u32, lo: u32, hi: u32)
        requires { AreTwoPlaces routes.now.lists v lo hi }
        ensures { let list = route routes.now.lists v in
            IsAfter routes.now.lists self.new v
            (slice_set (slice_set list lo (node_at list hi)) hi (node_at list lo)) }
    {
        let n = routes.len(v);
        self.begin(v, lo);
        self.node(routes.node_at(v, hi));
        self.chain(v, lo + 1, hi);
        self.node(routes.node_at(v, lo));
        self.end(hi + 1, n);
    }

    /// Writes the list of `v` without the nodes at two places.
    #[inline]
    pub fn take_two(&mut self, routes: &Routes, v: u32, lo: u32, hi: u32)
        requires { AreTwoPlaces routes.now.lists v lo hi }
        ensures { IsAfter routes.now.lists self.new v (without_two (route routes.now.lists v) lo hi) }
    {
        let n = routes.len(v);
        self.begin(v, lo);
        self.chain(v, lo + 1, hi);
        self.end(hi + 1, n);
    }

    /// Writes the list that a pair is in, its pickup first, with the pair put elsewhere. The pickup goes before place
    /// `s` of what the list is without the pair, and the delivery before place `t` of that.
    #[inline]
    pub fn move_pair(&mut self, routes: &Routes, at: PairPlaces, s: u32, t: u32, pair: Pair)
        requires two { AreTwoPlaces routes.now.lists at.vehicle at.pickup at.delivery }
        requires places { s ≤ t }
        requires gap { t + 2 ≤ length (route routes.now.lists at.vehicle) }
        ensures { let list = route routes.now.lists at.vehicle in
            IsAfter routes.now.lists self.new at.vehicle
            (with_pair pair s t (without_two list at.pickup at.delivery)) }
    {
        let v = at.vehicle;
        let n = routes.len(v);
        // The list stays as it is below place `front`, and from place `behind + 2` on. In the rest these are places
        // `front` and `behind`. Now the delivery is before place `delivery - 1` of the rest.
        let front = least(at.pickup, s);
        let behind = greatest(at.delivery - 1, t);
        self.begin(v, front);
        self.add_rest(at, front, s);
        self.node(pair.pickup);
        self.add_rest(at, s, t);
        self.node(pair.delivery);
        self.add_rest(at, t, behind);
        self.end(behind + 2, n);
    }

    // Adds the nodes from place `i` up to but not including place `j` of the rest: what a list is without a pair.
    // Before the pickup (below `lo`) a place of the rest is the same one in the list. Between the two nodes (below
    // `mid`) it is the next one, and after the delivery the next but one.
    #[inline]
    fn add_rest(&mut self, at: PairPlaces, i: u32, j: u32)
        requires order { at.pickup < at.delivery }
        requires low { at.delivery ≤ 1000 }
        requires places { i ≤ j }
        requires gap { j ≤ 1000 }
        requires room { length self.old.pieces + (is_past i j + cuts_before at.pickup at.delivery j)
            ≤ 8 + cuts_before at.pickup at.delivery i }
        ensures room { length self.new.pieces + cuts_before at.pickup at.delivery i
            ≤ length self.old.pieces + (is_past i j + cuts_before at.pickup at.delivery j) }
        ensures after { (lists : List (List ℕ)) (w front : ℕ) (nodes : List ℕ)
            → AreTwoPlaces lists at.vehicle at.pickup at.delivery → j + 2 ≤ length (route lists at.vehicle)
            → IsPartBegun lists self.old w front nodes → IsPartBegun lists self.new w front
            (nodes ++ slice_range (without_two (route lists at.vehicle) at.pickup at.delivery) i j) }
    {
        let v = at.vehicle;
        let lo = at.pickup;
        let mid = at.delivery - 1;
        self.some_chain(v, i, least(j, lo));
        self.some_chain(v, greatest(i, lo) + 1, least(j, mid) + 1);
        self.some_chain(v, greatest(i, mid) + 2, j + 2);
    }

    /// Writes the list that a pair is in, without the pair. In lists that are not valid its delivery may come first.
    #[inline]
    pub fn take_pair(&mut self, on: Standing<'_, '_>)
        requires { on.at.pickup ≢ on.at.delivery }
        ensures { let list = route on.entry.routes.now.lists on.entry.at.vehicle in
            IsAfter on.entry.routes.now.lists self.new on.entry.at.vehicle
            (without_pair (pair_at on.entry.model.now on.entry.p) list) }
    {
        let routes = on.routes;
        let at = on.at;
        routes.know_once();
        if at.pickup < at.delivery {
            self.take_two(routes, at.vehicle, at.pickup, at.delivery);
            return;
        }
        self.take_two(routes, at.vehicle, at.delivery, at.pickup);
    }
}

#[inline]
fn least(a: u32, b: u32) -> u32
    ensures { result ≡ a - (a - b) }
{
    if a < b { a } else { b }
}

#[inline]
fn greatest(a: u32, b: u32) -> u32
    ensures { result ≡ a + (b - a) }
{
    if a < b { b } else { a }
}
