//! Runs of moves that put a visit or a pair into a list. The answer is the first of them that may add less than a bound
//! to arc costs. If no loop can go over the numbers, it is the first number that is asked, or `None`: either says
//! nothing of the run. That is so if there is no such vehicle, node, pair or place, or if a delivery would come before
//! its pickup.

ghost use Rattle.std.specs.Prelude.{◌≡◌, ℕ, ◌<◌, ◌≤◌, ◌≢◌, length, IfSome};
ghost use Rattle.vr_model.specs.routes.Routes.{route};
ghost use Rattle.vr_model.specs.tables.Tables.{pair_at};
ghost use Rattle.vr_model.specs.declared.neighbours.Move.TheVariants.{MakeActive, PairActive, RelocatePair};
ghost use Rattle.vr_routes.specs.Pairs.{without_two, ArePairPlaces};
ghost use Rattle.vr_parts.specs.Bounds.{IsAddedByList};
ghost use Rattle.vr_arccosts.specs.ArcMoves.{costs_more};
ghost use Rattle.vr_arccosts.specs.Runs.{AddsNoLess};

use crate::committed::Committed;
use crate::gaps::{Asked, Ends, Put, first_delivery, first_gap};
use crate::rests::{Rest, first_in_rest};
use vr_routes::{PairPlaces, Piece, pair_served};

impl<'a, 'm> Committed<'a, 'm> {
    // The run of a visit that is put into a list, by the place there.
    #[inline(never)]
    pub(crate) fn first_made_active(self, u: u32, w: u32, asked: Asked) -> u32
        ensures from { asked.from ≤ result }
        ensures within { result ≤ asked.end }
        ensures no_less { (t : ℕ) → asked.from ≤ t → t < result
            → AddsNoLess self.entry.kept.now.model self.entry.routes.now.lists (MakeActive u w t) asked.bound }
    {
        if u >= self.kept.model().nodes
            || w >= self.routes.vehicles()
            || asked.end > self.routes.len(w) + 1
        {
            return asked.from;
        }
        let line = self.kept.line_of(self.routes, w);
        let ends = Ends { first: u, last: u };
        let put = Put {
            line: &line,
            ends,
            base: 0,
        };
        first_gap(&put, asked)
    }

    // The run of a pair that is put into a list with its pickup before a place, by the place of its delivery.
    #[inline(never)]
    pub(crate) fn first_pair_active(self, p: u32, w: u32, s: u32, asked: Asked) -> u32
        ensures from { asked.from ≤ result }
        ensures within { result ≤ asked.end }
        ensures no_less { (t : ℕ) → asked.from ≤ t → t < result
            → AddsNoLess self.entry.kept.now.model self.entry.routes.now.lists (PairActive p w s t) asked.bound }
    {
        if p as usize >= self.kept.model().pairs.len()
            || s > asked.from
            || w >= self.routes.vehicles()
        {
            return asked.from;
        }
        if asked.end > self.routes.len(w) + 1 {
            return asked.from;
        }
        let line = self.kept.line_of(self.routes, w);
        let pair = self.kept.pair(p);
        first_delivery(&line, pair, s, 0, asked)
    }

    // The run of a served pair that is put elsewhere with its pickup before a place, by the place of its delivery. It
    // is `None` also if the pair is not served.
    #[inline(never)]
    pub(crate) fn first_pair_relocated(self, p: u32, w: u32, s: u32, asked: Asked) -> Option<u32>
        ensures from { IfSome result (λ first. asked.from ≤ first) }
        ensures within { IfSome result (λ first. first ≤ asked.end) }
        ensures no_less { IfSome result (λ first. (t : ℕ) → asked.from ≤ t → t < first
            → AddsNoLess self.entry.kept.now.model self.entry.routes.now.lists (RelocatePair p w s t) asked.bound) }
    {
        match pair_served(self.kept.model(), self.routes, p) {
            None => None,
            Some(at) => {
                let served = Served { lists: self, p, at };
                served.first_put(w, s, asked)
            }
        }
    }
}

// A pair of the model that is served by the committed lists, with its pickup in front of its delivery.
#[derive(Clone, Copy)]
struct Served<'a, 'm> {
    lists: Committed<'a, 'm>,
    p: u32,
    at: PairPlaces,
    pub ghost known: { p < length lists.kept.now.model.pairs },
    pub ghost places: { ArePairPlaces lists.routes.now.lists (pair_at lists.kept.now.model p) at.vehicle at.pickup
        at.delivery },
    pub ghost in_turn: { at.pickup < at.delivery },
}

impl<'a, 'm> Served<'a, 'm> {
    // The run of the pair that is put before a place, by that of its delivery: into its own list or another one.
    #[inline(always)]
    fn first_put(&self, w: u32, s: u32, asked: Asked) -> Option<u32>
        ensures from { IfSome result (λ first. asked.from ≤ first) }
        ensures within { IfSome result (λ first. first ≤ asked.end) }
        ensures no_less { let served = self.now in IfSome result (λ first. (t : ℕ) → asked.from ≤ t → t < first
            → AddsNoLess served.lists.kept.now.model served.lists.routes.now.lists
            (RelocatePair served.p w s t) asked.bound) }
    {
        if w == self.at.vehicle {
            return self.first_put_back(s, asked);
        }
        self.first_put_elsewhere(w, s, asked)
    }

    // The run of a pair that is put back into its list.
    #[inline(always)]
    fn first_put_back(&self, s: u32, asked: Asked) -> Option<u32>
        ensures from { IfSome result (λ first. asked.from ≤ first) }
        ensures within { IfSome result (λ first. first ≤ asked.end) }
        ensures no_less { let served = self.now in IfSome result (λ first. (t : ℕ) → asked.from ≤ t → t < first
            → AddsNoLess served.lists.kept.now.model served.lists.routes.now.lists
            (RelocatePair served.p served.at.vehicle s t) asked.bound) }
    {
        // the list without the pair has two nodes less, and one gap more than nodes
        if s > asked.from || asked.end >= self.lists.routes.len(self.at.vehicle) {
            return None;
        }
        let left = self.without_pair();
        let rest = Rest {
            costs: self.lists.kept.costs_of(self.at.vehicle),
            list: self.lists.routes.list(self.at.vehicle),
            lo: self.at.pickup,
            hi: self.at.delivery,
        };
        let pair = self.lists.kept.pair(self.p);
        Some(first_in_rest(&rest, pair, s, left, asked))
    }

    // The run of a pair that is put into the list of another vehicle.
    #[inline(always)]
    fn first_put_elsewhere(&self, w: u32, s: u32, asked: Asked) -> Option<u32>
        requires other { self.now.at.vehicle ≢ w }
        ensures from { IfSome result (λ first. asked.from ≤ first) }
        ensures within { IfSome result (λ first. first ≤ asked.end) }
        ensures no_less { let served = self.now in IfSome result (λ first. (t : ℕ) → asked.from ≤ t → t < first
            → AddsNoLess served.lists.kept.now.model served.lists.routes.now.lists
            (RelocatePair served.p w s t) asked.bound) }
    {
        if s > asked.from || w >= self.lists.routes.vehicles() {
            return None;
        }
        if asked.end > self.lists.routes.len(w) + 1 {
            return None;
        }
        let left = self.without_pair();
        let line = self.lists.kept.line_of(self.lists.routes, w);
        let pair = self.lists.kept.pair(self.p);
        Some(first_delivery(&line, pair, s, left, asked))
    }

    // How much more the arcs of a vehicle cost without a pair of its list.
    #[inline(always)]
    fn without_pair(&self) -> i64
        ensures value { let served = self.now in
            let list = route served.lists.routes.now.lists served.at.vehicle in
            result ≡ costs_more served.lists.kept.now.model served.lists.routes.now.lists served.at.vehicle
            (without_two list served.at.pickup served.at.delivery) }
        ensures range { IsAddedByList result }
    {
        let between = Piece::Chain {
            vehicle: self.at.vehicle,
            from: self.at.pickup + 1,
            to: self.at.delivery,
            reversed: false,
        };
        self.lists.kept.between_adds(
            self.lists.routes,
            self.at.vehicle,
            self.at.pickup,
            self.at.delivery + 1,
            &[between],
        )
    }
}
