//! The arc costs of used vehicles, with bounds of what it adds to put nodes into lists.

ghost use Rattle.std.specs.Prelude.{◌≡◌, ◌<◌, ◌≤◌, ℕ, IfOk, IfSome, IsTrue, length};
ghost use Rattle.vr_arccosts.specs.Runs.{AddsNoLess};
ghost use Rattle.vr_bounds.specs.Kept.{AreAllPuts, IsUpTo, StandsBounded};
ghost use Rattle.vr_model.specs.declared.neighbours.Move.TheVariants.{MakeActive, Relocate};
ghost use Rattle.vr_model.specs.routes.Routes.{route};
ghost use Rattle.vr_model.specs.routes.Costs.{arcs_part};
ghost use Rattle.vr_model.specs.routes.Rules.{is_valid};
ghost use Rattle.vr_model.specs.tables.Tables.{visits};
ghost use Rattle.vr_model.specs.tables.WellFormed.{IsWellFormed};
ghost use Rattle.vr_routes.specs.Runs.{with_last};

use crate::drivers::Driver;
use crate::puts::Puts;
use std::alloc::Global;
use std::marker::Model;
use vr_arccosts::ArcCost;
use vr_model::{Closed, Model as RoutingModel, Move, NoMemory};
use vr_parts::{InfallibleCost, ListCost};
use vr_routes::{Change, Routes, Row, Splice};

/// The arc costs of used vehicles, and for each vehicle and node what it adds at least to put the node into the list.
/// That takes 16 bytes each. The bounds are kept between the moves that are made. So most runs of moves that put a
/// visit into a list are answered without a walk along the list.
#[derive(Drop)]
pub struct BoundedArcs<'m> {
    model: &'m RoutingModel,
    arcs: ArcCost<'m>,
    // of each vehicle
    puts: Vec<Puts>,
}

impl<'m> Model for BoundedArcs<'m> {
    ghost use Rattle.vr_bounds.specs.Kept.{KeptBounded};

    ghost Value = { KeptBounded };

    ghost view = { λ part. record { model = part.model.now; arcs = part.arcs; puts = part.puts.items } };
}

impl<'m> BoundedArcs<'m> {
    /// The arc costs of the lists of routes, with no bound known yet. The only error is out of memory.
    pub fn open(
        alloc: Global,
        model: &'m RoutingModel,
        routes: &Routes,
    ) -> Result<BoundedArcs<'m>, NoMemory>
        requires well_formed { IsWellFormed model.now }
        requires of_model { routes.now.visits ≡ visits model.now }
        requires valid { IsTrue (is_valid model.now routes.now.lists) }
        ensures model { IfOk result (λ part. part.model ≡ model.now) }
        ensures stands { IfOk result (λ part. StandsBounded part routes.now) }
    {
        let closed = Closed { model };
        let puts = puts_of(alloc, closed, routes)?;
        let arcs = ArcCost::open(alloc, model, routes)?;
        Ok(BoundedArcs { model, arcs, puts })
    }

    /// Goes over a run of moves of the committed lists, which differ in their last number: those of the numbers from
    /// `from` on, below `end`. Says from which number on some may add less than a bound, as `ArcCost::first_below`
    /// does. If the kept bounds tell that none does, no list is gone along.
    #[inline]
    pub fn first_below(
        &mut self,
        routes: &Routes,
        mv: Move,
        from: u32,
        end: u32,
        bound: i64,
    ) -> Option<u32>
        requires stands { StandsBounded self.old routes.now }
        requires order { from ≤ end }
        ensures from { IfSome result (λ first. from ≤ first) }
        ensures within { IfSome result (λ first. first ≤ end) }
        ensures no_less { IfSome result (λ first. (k : ℕ) → from ≤ k → k < first
            → AddsNoLess self.old.model routes.now.lists (with_last mv k) bound) }
        ensures stands { StandsBounded self.new routes.now }
        ensures model { self.new.model ≡ self.old.model }
    {
        // a run that goes on has a move that was not passed over
        if from == 0 && self.add_no_less(routes, mv, bound) {
            return Some(end);
        }
        self.arcs.first_below(routes, mv, from, end, bound)
    }

    // Whether the kept bounds tell that no move that differs from this one in its last number alone adds less than a
    // bound.
    #[inline]
    fn add_no_less(&mut self, routes: &Routes, mv: Move, bound: i64) -> bool
        requires stands { StandsBounded self.old routes.now }
        ensures no_less { IsTrue result
            → (k : ℕ) → AddsNoLess self.old.model routes.now.lists (with_last mv k) bound }
        ensures stands { StandsBounded self.new routes.now }
        ensures model { self.new.model ≡ self.old.model }
        ensures arcs { self.new.arcs ≡ self.old.arcs }
    {
        match mv {
            Move::Relocate { v, a, w, .. } => self.relocations_add_no_less(routes, v, a, w, bound),
            Move::MakeActive { u, w, .. } => self.gaps_add_no_less(routes, w, u, bound),
            _ => false,
        }
    }
}

impl<'m> BoundedArcs<'m> {
    // Whether the kept bounds tell it of the moves that put the visit at a place of a list into another list.
    #[inline]
    fn relocations_add_no_less(
        &mut self,
        routes: &Routes,
        v: u32,
        a: u32,
        w: u32,
        bound: i64,
    ) -> bool
        requires stands { StandsBounded self.old routes.now }
        ensures no_less { IsTrue result
            → (t : ℕ) → AddsNoLess self.old.model routes.now.lists (Relocate v a w t) bound }
        ensures stands { StandsBounded self.new routes.now }
        ensures model { self.new.model ≡ self.old.model }
        ensures arcs { self.new.arcs ≡ self.old.arcs }
    {
        if v >= routes.vehicles() || a >= routes.len(v) {
            return false;
        }
        let out = Splice {
            vehicle: v,
            front: a,
            behind: a + 1,
            middle: &[],
        };
        let left = self.arcs.list_adds(routes, out);
        match bound.checked_sub(left) {
            None => false,
            Some(rest) => self.gaps_add_no_less(routes, w, routes.node_at(v, a), rest),
        }
    }

    // Whether the kept bounds tell that each gap of a list adds no less than a bound if a node is put into it. They
    // tell nothing of a list without visits, and of a vehicle or a node that there is not.
    #[inline]
    fn gaps_add_no_less(&mut self, routes: &Routes, w: u32, node: u32, bound: i64) -> bool
        requires stands { StandsBounded self.old routes.now }
        ensures no_less { IsTrue result
            → IsUpTo self.old.model w (route routes.now.lists w) node bound }
        ensures stands { StandsBounded self.new routes.now }
        ensures model { self.new.model ≡ self.old.model }
        ensures arcs { self.new.arcs ≡ self.old.arcs }
    {
        if node >= self.model.nodes || w >= routes.vehicles() || routes.len(w) == 0 {
            return false;
        }
        let closed = Closed { model: self.model };
        let driver = Driver { closed, vehicle: w };
        self.puts[w as usize].reach(driver, node, bound)
    }
}

// What is kept of each vehicle of a model and its list, with no bound known yet.
fn puts_of(alloc: Global, closed: Closed<'_>, routes: &Routes) -> Result<Vec<Puts>, NoMemory>
    requires valid { IsTrue (is_valid closed.model.now routes.now.lists) }
    ensures many { IfOk result (λ puts. length puts.items ≡ length routes.now.lists) }
    ensures puts { IfOk result (λ puts. AreAllPuts closed.entry.model.now routes.now.lists puts.items) }
{
    let mut puts = Vec::with_capacity(alloc, routes.vehicles() as usize)?;
    for v in 0..routes.vehicles() {
        let driver = Driver { closed, vehicle: v };
        let mut kept = Puts::new(alloc, driver)?;
        kept.follow(driver, row_of(routes.list(v)));
        puts.push(kept)?;
    }
    Ok(puts)
}

// The same list in place.
fn row_of(list: &[u32]) -> Row
    requires { length list.now ≤ 1000 }
    ensures { result ≡ list.now }
{
    let mut row = Row::new();
    for &node in list {
        row.push(node);
    }
    row
}

impl<'m> InfallibleCost for BoundedArcs<'m> {
    ghost model = { λ part. part.model };

    ghost value = { arcs_part };

    ghost stands_at = { StandsBounded };

    #[inline]
    fn added(&mut self, routes: &Routes, change: &Change) -> i64 {
        self.arcs.added(routes, change)
    }

    fn commit_lists(&mut self, routes: &Routes, change: &Change) {
        let closed = Closed { model: self.model };
        for k in 0..change.parts() {
            let vehicle = change.vehicle(k);
            let mut row = Row::new();
            routes.join_into(change.pieces(k), &mut row);
            let driver = Driver { closed, vehicle };
            self.puts[vehicle as usize].follow(driver, row);
        }
        self.arcs.commit_lists(routes, change);
    }
}
