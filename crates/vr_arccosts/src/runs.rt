//! Runs of moves: the first of them that may add less than a bound to arc costs. Moves of two kinds are asked about by
//! themselves. Neighbours change places, or a front changes with an empty one of the second vehicle. `crosses` asks so
//! about fronts that leave a list empty, if both vehicles have the same costs.
//!
//! If no loop can go over the numbers, the answer is the first number that is asked: it says nothing of the run. That
//! is so if there is no such vehicle, node or place, or if moves name them in another order.

ghost use Rattle.std.specs.Prelude.{◌≡◌, ℕ, ◌+◌, ◌<◌, ◌≤◌, ◌≤ℤ◌, IfSome, IsTrue, false, length, true};
ghost use Rattle.vr_model.specs.routes.Routes.{route};
ghost use Rattle.vr_model.specs.moves.MoveTests.{is_move};
ghost use Rattle.vr_model.specs.declared.neighbours.Move.TheVariants.{Cross, Exchange, OrOpt, Relocate, TwoOpt};
ghost use Rattle.vr_routes.specs.Runs.{with_last};
ghost use Rattle.vr_routes.specs.declared.pieces.Piece.TheVariants.{Chain};
ghost use Rattle.vr_arccosts.specs.Along.{StandsAlong};
ghost use Rattle.vr_arccosts.specs.ArcMoves.{arcs_added};
ghost use Rattle.vr_parts.specs.Bounds.{IsAddedByChange, IsAddedByList};
ghost use Rattle.vr_arccosts.specs.Runs.{AddsNoLess, left_added};

use crate::ArcCost;
use crate::committed::Committed;
use crate::crosses::CrossRun;
use crate::gaps::{Asked, Ends, Put, first_around, first_gap, first_swap, first_turn};
use vr_model::Move;
use vr_routes::{Piece, Routes};

impl<'m> ArcCost<'m> {
    /// Goes over a run of moves of the committed lists, which differ in their last number: those of the numbers from
    /// `from` on, below `end`. Says from which number on some may add less than a bound: each move before it adds no
    /// less. This goes for moves after which the lists are not valid, too. How near it comes to the first is not
    /// promised.
    ///
    /// The numbers of `mv`, of which the last is any, need not be those of a move:
    /// - if there is no such vehicle, node, pair or place, it says `from` or `None`;
    /// - if a pair is to be put elsewhere that is not served, it says `None`.
    ///
    /// It says `None` of kinds that it does not go over (`MakeInactive` and `PairInactive`).
    #[inline(always)]
    pub fn first_below(
        &self,
        routes: &Routes,
        mv: Move,
        from: u32,
        end: u32,
        bound: i64,
    ) -> Option<u32>
        requires stands { StandsAlong self.now routes.now }
        requires order { from ≤ end }
        ensures from { IfSome result (λ first. from ≤ first) }
        ensures within { IfSome result (λ first. first ≤ end) }
        ensures no_less { IfSome result (λ first. (k : ℕ) → from ≤ k → k < first
            → AddsNoLess self.now.model routes.now.lists (with_last mv k) bound) }
    {
        let lists = Committed { kept: self, routes };
        let asked = Asked { from, end, bound };
        match mv {
            Move::TwoOpt { v, a, .. } => Some(lists.first_turned(v, a, asked)),
            Move::OrOpt { v, a, k, .. } => Some(lists.first_shifted(v, a, k, asked)),
            Move::Relocate { v, a, w, .. } => Some(lists.first_relocated(v, a, w, asked)),
            Move::Exchange { v, a, w, .. } => Some(lists.first_exchanged(v, a, w, asked)),
            Move::Cross { v, a, w, .. } => Some(lists.first_crossed(v, a, w, asked)),
            Move::MakeActive { u, w, .. } => Some(lists.first_made_active(u, w, asked)),
            Move::PairActive { p, w, s, .. } => { Some(lists.first_pair_active(p, w, s, asked)) }
            Move::RelocatePair { p, w, s, .. } => lists.first_pair_relocated(p, w, s, asked),
            Move::SwapActive { v, a, .. } => Some(lists.first_swapped_in(v, a, asked)),
            _ => None,
        }
    }
}

impl<'a, 'm> Committed<'a, 'm> {
    // The run of a part that is reversed, by its last place.
    #[inline(never)]
    fn first_turned(self, v: u32, a: u32, asked: Asked) -> u32
        ensures from { asked.from ≤ result }
        ensures within { result ≤ asked.end }
        ensures no_less { (k : ℕ) → asked.from ≤ k → k < result
            → AddsNoLess self.entry.kept.now.model self.entry.routes.now.lists (TwoOpt v a k) asked.bound }
    {
        if v >= self.routes.vehicles() || asked.from <= a || asked.end > self.routes.len(v) {
            return asked.from;
        }
        let line = self.kept.line_of(self.routes, v);
        first_turn(&line, a, asked)
    }

    // The run of a chain that is put elsewhere in its list, by the place there, which does not count the chain.
    #[inline(never)]
    fn first_shifted(self, v: u32, a: u32, k: u32, asked: Asked) -> u32
        ensures from { asked.from ≤ result }
        ensures within { result ≤ asked.end }
        ensures no_less { (t : ℕ) → asked.from ≤ t → t < result
            → AddsNoLess self.entry.kept.now.model self.entry.routes.now.lists (OrOpt v a k t) asked.bound }
    {
        if v >= self.routes.vehicles() {
            return asked.from;
        }
        let n = self.routes.len(v);
        if k == 0 || k > n || a > n - k || asked.end > n - k + 1 {
            return asked.from;
        }
        let ends = Ends {
            first: self.routes.node_at(v, a),
            last: self.routes.node_at(v, a + k - 1),
        };
        let line = self.kept.line_of(self.routes, v);
        let left = self.left_added(v, a, k);
        let put = Put {
            line: &line,
            ends,
            base: left,
        };
        first_around(&put, a, k, asked)
    }

    // What a chain adds if it leaves its place, without the arcs along it: it keeps them at its new place.
    #[inline(always)]
    fn left_added(self, v: u32, a: u32, k: u32) -> i64
        requires vehicle { v < length self.routes.now.lists }
        requires some { 1 ≤ k }
        requires place { a + k ≤ length (route self.routes.now.lists v) }
        ensures value { result ≡ left_added self.entry.kept.now.model v (route self.entry.routes.now.lists v) a k }
        ensures range { IsAddedByChange result }
    {
        let line = self.kept.line_of(self.routes, v);
        let without = self.kept.between_adds(self.routes, v, a, a + k, &[]);
        let chain = line.along.chain(false, a, a + k);
        without + chain
    }

    // The run of a visit that is put into the list of another vehicle, by the place there.
    #[inline(never)]
    fn first_relocated(self, v: u32, a: u32, w: u32, asked: Asked) -> u32
        ensures from { asked.from ≤ result }
        ensures within { result ≤ asked.end }
        ensures no_less { (k : ℕ) → asked.from ≤ k → k < result
            → AddsNoLess self.entry.kept.now.model self.entry.routes.now.lists (Relocate v a w k) asked.bound }
    {
        let vehicles = self.routes.vehicles();
        if v >= vehicles
            || w >= vehicles
            || a >= self.routes.len(v)
            || asked.end > self.routes.len(w) + 1
        {
            return asked.from;
        }
        let node = self.routes.node_at(v, a);
        let base = self.kept.between_adds(self.routes, v, a, a + 1, &[]);
        let line = self.kept.line_of(self.routes, w);
        let ends = Ends {
            first: node,
            last: node,
        };
        let put = Put {
            line: &line,
            ends,
            base,
        };
        first_gap(&put, asked)
    }

    // The run of a visit that changes places with those of a list, by the place there.
    #[inline(never)]
    fn first_exchanged(self, v: u32, a: u32, w: u32, asked: Asked) -> u32
        ensures from { asked.from ≤ result }
        ensures within { result ≤ asked.end }
        ensures no_less { (b : ℕ) → asked.from ≤ b → b < result
            → AddsNoLess self.entry.kept.now.model self.entry.routes.now.lists (Exchange v a w b) asked.bound }
    {
        let vehicles = self.routes.vehicles();
        if v >= vehicles
            || w >= vehicles
            || a >= self.routes.len(v)
            || asked.end > self.routes.len(w)
        {
            return asked.from;
        }
        if v != w || asked.from > a + 1 {
            return self.first_apart(v, a, w, asked);
        }
        // within one list a move names the earlier place first, so no run has a number up to `a`
        if asked.from <= a || asked.from == asked.end {
            return asked.from;
        }
        // the visit next to it
        if self.neighbours_exchanged(v, a) < asked.bound {
            return asked.from;
        }
        self.first_apart(v, a, w, asked.starting(a + 2))
    }

    // What a visit and the one after it add that take each other's place.
    #[inline(always)]
    fn neighbours_exchanged(self, v: u32, a: u32) -> i64
        requires is_one { is_move self.kept.now.model self.routes.now.lists (Exchange v a v (a + 1)) ≡ true }
        ensures exact { result
            ≡ arcs_added self.entry.kept.now.model self.entry.routes.now.lists (Exchange v a v (a + 1)) }
        ensures range { IsAddedByList result }
    {
        // they are a stretch of two that is turned
        let turned = Piece::Chain {
            vehicle: v,
            from: a,
            to: a + 2,
            reversed: true,
        };
        self.kept.between_adds(self.routes, v, a, a + 2, &[turned])
    }

    // The same run, if the visits are not side by side.
    #[inline(always)]
    fn first_apart(self, v: u32, a: u32, w: u32, asked: Asked) -> u32
        requires vehicle { v < length self.routes.now.lists }
        requires other { w < length self.routes.now.lists }
        requires place { a < length (route self.routes.now.lists v) }
        requires places { asked.end ≤ length (route self.routes.now.lists w) }
        requires apart { v ≡ w → a + 1 < asked.from }
        ensures from { asked.from ≤ result }
        ensures within { result ≤ asked.end }
        ensures no_less { (b : ℕ) → asked.from ≤ b → b < result
            → AddsNoLess self.entry.kept.now.model self.entry.routes.now.lists (Exchange v a w b) asked.bound }
    {
        let line = self.kept.line_of(self.routes, v);
        let other = self.kept.line_of(self.routes, w);
        first_swap(&line, a, &other, asked)
    }

    // The run of a front that changes vehicles with those of another list, by the place after the latter.
    #[inline(never)]
    fn first_crossed(self, v: u32, a: u32, w: u32, asked: Asked) -> u32
        ensures from { asked.from ≤ result }
        ensures within { result ≤ asked.end }
        ensures no_less { (b : ℕ) → asked.from ≤ b → b < result
            → AddsNoLess self.entry.kept.now.model self.entry.routes.now.lists (Cross v a w b) asked.bound }
    {
        if v >= w || w >= self.routes.vehicles() || a > self.routes.len(v) {
            return asked.from;
        }
        if asked.end > self.routes.len(w) + 1 {
            return asked.from;
        }
        if asked.from == asked.end {
            return asked.end;
        }
        if asked.from > 0 {
            let run = CrossRun {
                lists: self,
                v,
                a,
                w,
                asked,
            };
            return run.first();
        }
        // the other front is empty; if both are, it is no move
        if a > 0 && self.crossed(v, a, w, 0) < asked.bound {
            return 0;
        }
        let behind = CrossRun {
            lists: self,
            v,
            a,
            w,
            asked: asked.starting(1),
        };
        behind.first()
    }

    /// What the fronts of two lists add that change vehicles.
    #[inline(always)]
    pub(crate) fn crossed(self, v: u32, a: u32, w: u32, b: u32) -> i64
        requires is_one { is_move self.kept.now.model self.routes.now.lists (Cross v a w b) ≡ true }
        ensures exact { result ≡ arcs_added self.entry.kept.now.model self.entry.routes.now.lists (Cross v a w b) }
        ensures range { IsAddedByChange result }
    {
        let one = self.kept.between_adds(self.routes, v, 0, a, &[front(w, b)]);
        let other = self.kept.between_adds(self.routes, w, 0, b, &[front(v, a)]);
        one + other
    }
}

// The front of the list of a vehicle, up to a place, as a piece.
#[inline]
fn front(vehicle: u32, to: u32) -> Piece
    ensures { result ≡ Chain vehicle 0 to false }
{
    Piece::Chain {
        vehicle,
        from: 0,
        to,
        reversed: false,
    }
}
