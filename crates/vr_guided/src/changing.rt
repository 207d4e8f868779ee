//! What a change makes of the penalised arc costs, by the stretches that it changes.

ghost use Rattle.std.proofs.Props.{props};
ghost use Rattle.std.specs.Prelude.{◌≡◌, ◌<◌, ◌≤◌, ◌+◌, ◌-ℤ◌, ◌+ℤ◌, ◌≤ℤ◌, ◌^◌, negsuc, ◌∷◌, ◌++◌, [], IsTrue, ◌*◌};
ghost use Rattle.std.specs.Prelude.{All, Some, ℕ, drop, length, pos, take, true, unsigned_abs};
ghost use Rattle.vr_guided.specs.Counts.{counted};
ghost use Rattle.vr_guided.specs.Nexts.{IsFirstOf};
ghost use Rattle.vr_guided.specs.Parts.{IsPart, weight_change};
ghost use Rattle.vr_routes.specs.Pieces.{IsWithin-prop};
ghost use Rattle.vr_guided.specs.RouteSums.{AreAllRouteSums};
ghost use Rattle.vr_guided.specs.Savings.{touched_weight, AreAlike, CutAtMost, SavesAtMost, TakesAtMost};
ghost use Rattle.vr_guided.specs.Walks.{route_weight};
ghost use Rattle.vr_known.specs.Touching.{AreFound};
ghost use Rattle.vr_model.specs.declared.neighbours.Move.TheVariants.{Relocate, Exchange, Cross};
ghost use Rattle.vr_model.specs.search.GuidedSearches.{penalised};
ghost use Rattle.vr_model.specs.routes.Routes.{are_lists, route};
ghost use Rattle.vr_model.specs.routes.Rules.{is_valid};
ghost use Rattle.vr_model.specs.tables.WellFormed.{IsIn};
ghost use Rattle.vr_routes.specs.Changes.{AreParts};
ghost use Rattle.vr_routes.specs.Pieces.{changed, part_at, IsSplice};
ghost use Rattle.vr_balance.specs.Sums.{last_of};

use crate::route_sums::{AllRouteSums, RouteSums};
use crate::stretches::Stretches;
use crate::weights::{VehicleWeights, Weights};
use vr_known::Touched;
use vr_model::Move;
use vr_routes::{Change, Routes, Splice};

// The node before a place of a list, `start` before the first.
#[inline]
fn node_before(list: &[u32], place: u32, start: u32) -> u32
    requires { place ≤ length list.now }
    ensures node { result ≡ last_of start (take place list.now) }
    ensures below { (n : ℕ) → start < n → All (λ node. node < n) list.now → result < n }
{
    if place == 0 {
        return start;
    }
    list[place as usize - 1]
}

// The node at a place of a list, `end` after the last.
#[inline]
fn node_from(list: &[u32], place: u32, end: u32) -> u32
    requires { place ≤ length list.now }
    ensures node { IsFirstOf result (drop place list.now ++ end ∷ []) }
    ensures below { (n : ℕ) → end < n → All (λ node. node < n) list.now → result < n }
{
    if place as usize == list.len() {
        return end;
    }
    list[place as usize]
}

/// Valid routes with the sums of their lists.
#[derive(Clone, Copy)]
pub struct WeighedRoutes<'m, 'p, 's, 'r> {
    /// By which the arcs are weighed.
    pub weights: Weights<'m, 'p>,
    pub routes: &'r Routes,
    pub route_sums: &'s AllRouteSums,
    /// The lists are valid.
    pub ghost valid: { IsTrue (is_valid weights.closed.model.now routes.now.lists) },
    /// The sums are those of these lists.
    pub ghost sums: { AreAllRouteSums weights.closed.model.now (counted weights.penalties.now) routes.now.lists
        route_sums.now },
}

/// A change of such routes.
#[derive(Clone, Copy)]
pub struct WeighedChange<'m, 'p, 's, 'r, 'c> {
    pub of: WeighedRoutes<'m, 'p, 's, 'r>,
    pub change: &'c Change,
    /// Its parts are parts of the lists.
    pub ghost parts: { AreParts of.routes.now.lists change.now } by { Prim.hlevel (props, IsWithin-prop) },
    /// After it the lists are those of the model.
    pub ghost after: { IsTrue (are_lists of.weights.closed.model.now (changed of.routes.now.lists change.now)) },
}

impl<'m, 'p, 's, 'r, 'c> WeighedChange<'m, 'p, 's, 'r, 'c> {
    /// What the change makes of the penalised arc costs, by the stretches that it changes. Takes no memory.
    pub fn difference(&self) -> i128
        ensures bound { unsigned_abs result ≤ 2 ^ 100 }
        ensures value { result
            ≡ penalised self.now.of.weights.closed.model.now (counted self.now.of.weights.penalties.now)
            (changed self.now.of.routes.now.lists self.now.change.now)
            -ℤ penalised self.now.of.weights.closed.model.now (counted self.now.of.weights.penalties.now)
            self.now.of.routes.now.lists }
    {
        if !self.of.weights.penalties.is_any() {
            return 0;
        }
        let parts = self.change.parts();
        let first = self.change_of_part(0);
        if parts == 1 {
            return first;
        }
        first + self.change_of_part(1)
    }

    /// Bounds what the change takes of the penalised arc costs: no more than the arcs of the stretches that it changes
    /// add now. Takes no memory.
    pub fn saved_at_most(&self) -> i128
        ensures low { pos 0 ≤ℤ result }
        ensures high { result ≤ℤ pos (2 ^ 90) }
        ensures most { (penalised self.now.of.weights.closed.model.now (counted self.now.of.weights.penalties.now)
            self.now.of.routes.now.lists
            -ℤ penalised self.now.of.weights.closed.model.now (counted self.now.of.weights.penalties.now)
            (changed self.now.of.routes.now.lists self.now.change.now)) ≤ℤ result }
    {
        if !self.of.weights.penalties.is_any() {
            return 0;
        }
        let parts = self.change.parts();
        let first = self.saved_by_part(0);
        if parts == 1 {
            return first;
        }
        first + self.saved_by_part(1)
    }

    // Part `k` as a splice of the list of its vehicle.
    #[inline]
    fn splice(&self, k: usize) -> Splice<'_>
        requires { k < length self.now.change.now }
        ensures vehicle { result.vehicle ≡ (part_at self.now.change.now k).vehicle }
        ensures part { IsPart self.now.of.weights.closed.model.now self.now.of.routes.now.lists result.vehicle
            (part_at self.now.change.now k).pieces }
        ensures ends { IsSplice self.now.of.routes.now.lists result.vehicle (part_at self.now.change.now k).pieces
            result.front result.behind result.middle.now }
    {
        self.change.splice(k)
    }

    // What part `k` takes of the penalised arc costs at most.
    #[inline]
    fn saved_by_part(&self, k: usize) -> i128
        requires { k < length self.now.change.now }
        ensures low { pos 0 ≤ℤ result }
        ensures high { result ≤ℤ pos (1001 * 2 ^ 70) }
        ensures most { pos 0 ≤ℤ (weight_change self.now.of.weights.closed.model.now
            (counted self.now.of.weights.penalties.now) self.now.of.routes.now.lists (part_at self.now.change.now k)
            +ℤ result) }
    {
        let of = self.of;
        let splice = self.splice(k);
        let stretches = Stretches {
            arcs: VehicleWeights {
                weights: of.weights,
                vehicle: splice.vehicle,
            },
            routes: of.routes,
            route_sums: of.route_sums,
        };
        stretches.old_stretch(splice.front, splice.behind)
    }

    // What part `k` makes of the penalised arc costs.
    fn change_of_part(&self, k: usize) -> i128
        requires { k < length self.now.change.now }
        ensures range { IsIn (negsuc (2 ^ 90)) (pos (2 ^ 90)) result }
        ensures value { result ≡ weight_change self.now.of.weights.closed.model.now
            (counted self.now.of.weights.penalties.now) self.now.of.routes.now.lists (part_at self.now.change.now k) }
    {
        let of = self.of;
        let splice = self.splice(k);
        let arcs = VehicleWeights {
            weights: of.weights,
            vehicle: splice.vehicle,
        };
        let stretches = Stretches {
            arcs,
            routes: of.routes,
            route_sums: of.route_sums,
        };
        let list = of.routes.list(splice.vehicle);
        let own = arcs.ends();
        let start = node_before(list, splice.front, own.start);
        let next = node_from(list, splice.behind, own.end);
        let new = stretches.new_stretch(start, splice.middle, next);
        let old = stretches.old_stretch(splice.front, splice.behind);
        let len = splice.front + new.nodes + (list.len() as u32 - splice.behind);
        // both have the arc from start to end if the list is empty, and then it is not taken
        let before = old - arcs.unused(list.len() as u32);
        let after = new.total - arcs.unused(len);
        after - before
    }
}

impl<'m, 'p, 's, 'r> WeighedRoutes<'m, 'p, 's, 'r> {
    /// Bounds what the moves of a run take of the penalised arc costs, whatever their last number is. The bound depends
    /// on the kind of the move:
    ///
    /// - If a visit is put elsewhere, or exchanged, it is what both its arcs add now, and what the other list can lose:
    ///   its dearest arc, or its two dearest neighbours.
    /// - If fronts change vehicles which are alike, it is what the arcs at both cuts add.
    /// - Of other moves it is all that the arcs of their lists add now.
    ///
    /// The numbers of `mv` need not be those of a move. Takes no memory.
    #[inline]
    pub fn saved_in_run(&self, mv: Move, touched: Touched) -> i128
        requires first { touched.first < length self.now.routes.now.lists }
        requires second { touched.second < length self.now.routes.now.lists }
        requires found { AreFound self.now.weights.closed.model.now self.now.routes.now.lists mv (Some touched) }
        ensures low { pos 0 ≤ℤ result }
        ensures high { result ≤ℤ pos (2 ^ 90) }
        ensures most { SavesAtMost self.now.weights.closed.model.now (counted self.now.weights.penalties.now)
            self.now.routes.now.lists mv result }
    {
        match mv {
            Move::Relocate { a, .. } => self.saved_by_relocating(touched, a),
            Move::Exchange { a, .. } => self.saved_by_exchanging(touched, a),
            Move::Cross { a, .. } => self.saved_by_crossing(touched, a),
            Move::MakeActive { .. } => self.most_of(touched.first).most_at_gap,
            _ => self.saved_by_lists(touched),
        }
    }

    // What is taken at most if the node at place `a` of the first list is put into the second one.
    #[inline]
    fn saved_by_relocating(&self, touched: Touched, a: u32) -> i128
        requires first { touched.first < length self.now.routes.now.lists }
        requires second { touched.second < length self.now.routes.now.lists }
        ensures low { pos 0 ≤ℤ result }
        ensures high { result ≤ℤ pos (2 ^ 90) }
        ensures most { SavesAtMost self.now.weights.closed.model.now (counted self.now.weights.penalties.now)
            self.now.routes.now.lists (Relocate touched.first a touched.second 0) result }
    {
        self.saved_at_place(touched.first, a) + self.most_of(touched.second).most_at_gap
    }

    // What is taken at most if the node at place `a` of the first list is exchanged with one of the second. Within one
    // list it is all that its arcs add.
    #[inline]
    fn saved_by_exchanging(&self, touched: Touched, a: u32) -> i128
        requires first { touched.first < length self.now.routes.now.lists }
        requires second { touched.second < length self.now.routes.now.lists }
        ensures low { pos 0 ≤ℤ result }
        ensures high { result ≤ℤ pos (2 ^ 90) }
        ensures most { SavesAtMost self.now.weights.closed.model.now (counted self.now.weights.penalties.now)
            self.now.routes.now.lists (Exchange touched.first a touched.second 0) result }
    {
        if touched.first == touched.second {
            return self.saved_by_lists(touched);
        }
        self.saved_at_place(touched.first, a) + self.most_of(touched.second).most_at_place
    }

    // What is taken at most if the nodes before place `a` of the first list and a front of the second one change
    // vehicles. If these are alike, it is what the arcs at both cuts add, else all that the arcs of both lists add.
    #[inline]
    fn saved_by_crossing(&self, touched: Touched, a: u32) -> i128
        requires first { touched.first < length self.now.routes.now.lists }
        requires second { touched.second < length self.now.routes.now.lists }
        ensures low { pos 0 ≤ℤ result }
        ensures high { result ≤ℤ pos (2 ^ 90) }
        ensures most { SavesAtMost self.now.weights.closed.model.now (counted self.now.weights.penalties.now)
            self.now.routes.now.lists (Cross touched.first a touched.second 0) result }
    {
        if !self.are_alike(touched.first, touched.second) {
            return self.saved_by_lists(touched);
        }
        self.saved_at_gap(touched.first, a) + self.most_of(touched.second).most_at_gap
    }

    // Whether two vehicles have the same arc costs, and start and end at the same nodes.
    #[inline]
    fn are_alike(&self, v: u32, w: u32) -> bool
        requires first { v < length self.now.routes.now.lists }
        requires second { w < length self.now.routes.now.lists }
        ensures { result ≡ true → AreAlike self.now.weights.closed.model.now v w }
    {
        let vehicles = &self.weights.closed.model.vehicles;
        let one = vehicles.get(v as usize);
        let other = vehicles.get(w as usize);
        one.costs == other.costs && one.start == other.start && one.end == other.end
    }

    // What the arc at a gap of the list of a vehicle adds now. Nothing if there is no such gap.
    #[inline]
    fn saved_at_gap(&self, v: u32, t: u32) -> i128
        requires { v < length self.now.routes.now.lists }
        ensures low { pos 0 ≤ℤ result }
        ensures high { result ≤ℤ pos (1001 * 2 ^ 70) }
        ensures most { t ≤ length (route self.now.routes.now.lists v) → CutAtMost self.now.weights.closed.model.now
            (counted self.now.weights.penalties.now) v (route self.now.routes.now.lists v) t result }
    {
        if t > self.routes.len(v) {
            return 0;
        }
        let stretches = Stretches {
            arcs: VehicleWeights {
                weights: self.weights,
                vehicle: v,
            },
            routes: self.routes,
            route_sums: self.route_sums,
        };
        stretches.old_stretch(t, t)
    }

    // What is taken at most if others come in place of the node at place `a` of the list of a vehicle. It is what both
    // its arcs add now, and nothing if there is no such place.
    #[inline]
    fn saved_at_place(&self, v: u32, a: u32) -> i128
        requires { v < length self.now.routes.now.lists }
        ensures low { pos 0 ≤ℤ result }
        ensures high { result ≤ℤ pos (1001 * 2 ^ 70) }
        ensures most { a < length (route self.now.routes.now.lists v) → TakesAtMost
            self.now.weights.closed.model.now (counted self.now.weights.penalties.now) v
            (route self.now.routes.now.lists v) a (a + 1) result }
    {
        if a >= self.routes.len(v) {
            return 0;
        }
        let stretches = Stretches {
            arcs: VehicleWeights {
                weights: self.weights,
                vehicle: v,
            },
            routes: self.routes,
            route_sums: self.route_sums,
        };
        stretches.old_stretch(a, a + 1)
    }

    // What the arcs of the list of a vehicle add at most, by themselves and two by two.
    #[inline]
    fn most_of(&self, v: u32) -> &RouteSums
        requires { v < length self.now.routes.now.lists }
        ensures gap_in_range { IsIn (pos 0) (pos (1001 * 2 ^ 70)) result.now.most_at_gap }
        ensures place_in_range { IsIn (pos 0) (pos (1001 * 2 ^ 70)) result.now.most_at_place }
        ensures gap { (t : ℕ) → t ≤ length (route self.now.routes.now.lists v) → TakesAtMost
            self.now.weights.closed.model.now (counted self.now.weights.penalties.now) v
            (route self.now.routes.now.lists v) t t result.now.most_at_gap }
        ensures cut { (t : ℕ) → t ≤ length (route self.now.routes.now.lists v) → CutAtMost
            self.now.weights.closed.model.now (counted self.now.weights.penalties.now) v
            (route self.now.routes.now.lists v) t result.now.most_at_gap }
        ensures place { (b : ℕ) → b < length (route self.now.routes.now.lists v) → TakesAtMost
            self.now.weights.closed.model.now (counted self.now.weights.penalties.now) v
            (route self.now.routes.now.lists v) b (b + 1) result.now.most_at_place }
    {
        self.route_sums.of(v)
    }

    // What new lists of these vehicles take of the penalised arc costs at most: what the arcs of their lists add now.
    #[inline]
    fn saved_by_lists(&self, touched: Touched) -> i128
        requires first { touched.first < length self.now.routes.now.lists }
        requires second { touched.second < length self.now.routes.now.lists }
        ensures low { pos 0 ≤ℤ result }
        ensures high { result ≤ℤ pos (2 ^ 90) }
        ensures most { touched_weight self.now.weights.closed.model.now (counted self.now.weights.penalties.now)
            self.now.routes.now.lists touched ≤ℤ result }
    {
        if !self.weights.penalties.is_any() {
            return 0;
        }
        let first = self.saved_by_list(touched.first);
        if touched.second == touched.first {
            return first;
        }
        first + self.saved_by_list(touched.second)
    }

    // What the arcs of the list of a vehicle add at most. Of an empty list the arc from start to end counts too, though
    // it is not taken.
    #[inline]
    fn saved_by_list(&self, v: u32) -> i128
        requires { v < length self.now.routes.now.lists }
        ensures low { pos 0 ≤ℤ result }
        ensures high { result ≤ℤ pos (1001 * 2 ^ 70) }
        ensures most { route_weight self.now.weights.closed.model.now (counted self.now.weights.penalties.now) v
            (route self.now.routes.now.lists v) ≤ℤ result }
    {
        let stretches = Stretches {
            arcs: VehicleWeights {
                weights: self.weights,
                vehicle: v,
            },
            routes: self.routes,
            route_sums: self.route_sums,
        };
        stretches.old_stretch(0, self.routes.len(v))
    }
}
