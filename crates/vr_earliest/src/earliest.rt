//! How early vehicles can end lists and how short their spans can be, in all dimensions of a model.

ghost use Rattle.std.specs.Prelude.{◌≡◌, ◌<◌, ◌≤◌, ℕ, List, All, IfOk, IsTrue, length};
ghost use Rattle.vr_model.specs.moves.Moves.{with_route};
ghost use Rattle.vr_model.specs.routes.Rules.{is_valid};
ghost use Rattle.vr_model.specs.tables.WellFormed.{IsWellFormed};
ghost use Rattle.vr_routes.specs.Changes.{AreParts, IsMadeOn};
ghost use Rattle.vr_routes.specs.Pieces.{changed, joined, part_at};
ghost use Rattle.vr_earliest.specs.Earlies.{AreEarlies, IsEarly, IsEarlyPart, IsEarlyRow, MayTell};
ghost use Rattle.vr_earliest.specs.Floors.{AreAllFloors};
ghost use Rattle.vr_earliest.specs.Kept.{HaveAllWays, StandsEarliest};
ghost use Rattle.vr_earliest.specs.Ways.{whole_way, IsWholeWay};

use crate::earlies::{Earlies, Early};
use crate::floors::Floors;
use crate::kept::KeptLists;
use crate::walks::along_pieces;
use crate::ways::{Guide, Way};
use std::alloc::Global;
use std::marker::Model;
use vr_model::limits::HORIZON;
use vr_model::{Closed, Model as RoutingModel, NoMemory};
use vr_routes::{Change, Routes, Row};

/// How early vehicles can end lists. It keeps ways along the committed lists, and what is left after each place of
/// them. So it walks along what a change puts between the kept ends of lists alone, in the dimensions in which anything
/// is paid for spans. Contracts see the model, and what is kept of the committed lists.
#[derive(Drop)]
pub struct Earliest<'m> {
    model: &'m RoutingModel,
    // of each dimension
    floors: Vec<Floors>,
    // of each dimension
    kept: Vec<KeptLists>,
    // room for a list that is committed
    row: Row,
}

impl<'m> Model for Earliest<'m> {
    ghost use Rattle.vr_earliest.specs.Floors.{AreOfModel};
    ghost use Rattle.vr_earliest.specs.Kept.{KeptEarly};

    ghost Value = { KeptEarly };

    ghost view = { λ earliest. record { model = earliest.model.now; kept = earliest.kept.items } };

    ghost invariant = { λ earliest. AreOfModel earliest.model.now earliest.floors.items };
}

impl<'m> Earliest<'m> {
    /// That of the lists of routes. The only error is out of memory.
    pub fn open(
        alloc: Global,
        model: &'m RoutingModel,
        routes: &Routes,
    ) -> Result<Earliest<'m>, NoMemory>
        requires well_formed { IsWellFormed model.now }
        requires valid { IsTrue (is_valid model.now routes.now.lists) }
        ensures model { IfOk result (λ earliest. earliest.model ≡ model.now) }
        ensures stands { IfOk result (λ earliest. StandsEarliest earliest routes.now.lists) }
    {
        let closed = Closed { model };
        let floors = floors_of(alloc, closed)?;
        let kept = kept_of(alloc, closed, &floors, routes)?;
        Ok(Earliest {
            model,
            floors,
            kept,
            row: Row::new(),
        })
    }

    // What the chosen schedule of the list that part `k` of a change gives its vehicle comes to at least, in dimension
    // `d`. No schedule is built, and what stays at the ends of the list is not walked.
    fn after(&self, d: u32, routes: &Routes, change: &Change, k: usize) -> Early
        requires may { MayTell self.now routes.now.lists change.now d }
        requires part { k < length change.now }
        ensures { IsEarlyPart self.now.model routes.now.lists d (part_at change.now k) result }
    {
        // that there are eight pieces at most is for the clause alone
        let _few = change.pieces(k);
        let splice = change.splice(k);
        let v = splice.vehicle;
        let guide = Guide::of(Closed { model: self.model }, &self.floors[d as usize], d, v);
        let all = &self.kept[d as usize];
        let kept = &all.lists[v as usize];
        let way = along_pieces(&guide, routes, splice.middle, kept.way(splice.front));
        let whole = guide.to_end(way, kept.rest(splice.behind));
        early_of(&guide, whole)
    }

    /// Writes what the chosen schedules of the lists after a change come to at least, in each dimension in which
    /// anything is paid for spans. It takes no memory.
    pub fn write_after(&self, routes: &Routes, change: &Change, out: &mut Earlies)
        requires stands { StandsEarliest self.now routes.now.lists }
        requires parts { AreParts routes.now.lists change.now }
        requires nodes { (k : ℕ) → k < length change.now → All (λ node. node < self.now.model.nodes)
            (joined routes.now.lists (part_at change.now k).pieces) }
        ensures { AreEarlies self.now.model routes.now.lists change.now out.new }
    {
        // that there are two parts at most is for the clause alone
        let _few = change.parts();
        for d in 0..self.kept.len() {
            if !self.kept[d].lists.is_empty() {
                out.set(d, self.row_after(d as u32, routes, change));
            }
        }
    }

    // What the chosen schedules of the lists after a change come to at least in dimension `d`, by part. It is 0 of a
    // second part that there is not.
    fn row_after(&self, d: u32, routes: &Routes, change: &Change) -> [Early; 2]
        requires { MayTell self.now routes.now.lists change.now d }
        ensures { IsEarlyRow self.now.model routes.now.lists change.now d result }
    {
        let mut row = [Early { last: 0, span: 0 }; 2];
        for k in 0..change.parts() {
            row[k] = self.after(d, routes, change, k);
        }
        row
    }

    /// What is kept becomes that of the lists after a change, which must be valid. It is called before the routes are
    /// changed, and takes no memory.
    pub fn commit(&mut self, routes: &Routes, change: &Change)
        requires stands { StandsEarliest self.old routes.now.lists }
        requires made { IsMadeOn routes.now change.now }
        requires valid { IsTrue (is_valid self.old.model (changed routes.now.lists change.now)) }
        ensures stands { StandsEarliest self.new (changed routes.now.lists change.now) }
        ensures model { self.new.model ≡ self.old.model }
    {
        for k in 0..change.parts() {
            routes.join_into(change.pieces(k), &mut self.row);
            write_list(
                Closed { model: self.model },
                &self.floors,
                &mut self.kept,
                change.vehicle(k),
                self.row.as_slice(),
            );
        }
    }
}

// The floors of each dimension.
fn floors_of(alloc: Global, closed: Closed<'_>) -> Result<Vec<Floors>, NoMemory>
    ensures { IfOk result (λ floors. AreAllFloors closed.entry.model.now floors.items) }
{
    let mut floors = Vec::with_capacity(alloc, closed.model.dimensions.len())?;
    for d in 0..closed.model.dimensions.len() {
        floors.push(Floors::of(alloc, closed, d as u32)?)?;
    }
    Ok(floors)
}

// What is kept of the lists of routes in each dimension.
fn kept_of(
    alloc: Global,
    closed: Closed<'_>,
    floors: &[Floors],
    routes: &Routes,
) -> Result<Vec<KeptLists>, NoMemory>
    requires valid { IsTrue (is_valid closed.model.now routes.now.lists) }
    requires floors { AreAllFloors closed.model.now floors.now }
    ensures { IfOk result (λ kept. HaveAllWays closed.entry.model.now routes.now.lists kept.items) }
{
    let mut kept = Vec::with_capacity(alloc, floors.len())?;
    for d in 0..floors.len() {
        kept.push(KeptLists::of(alloc, closed, &floors[d], d as u32, routes)?)?;
    }
    Ok(kept)
}

// Vehicle `v` gets another list, in all dimensions.
fn write_list(closed: Closed<'_>, floors: &[Floors], kept: &mut [KeptLists], v: u32, list: &[u32])
    requires floors { AreAllFloors closed.model.now floors.now }
    requires many { length kept.old ≡ length closed.model.now.dimensions }
    requires vehicle { v < length closed.model.now.vehicles }
    requires few { length list.now ≤ 1000 }
    requires nodes { All (λ node. node < closed.model.now.nodes) list.now }
    ensures { (lists : List (List ℕ)) → HaveAllWays closed.entry.model.now lists kept.old → v < length lists
        → HaveAllWays closed.entry.model.now (with_route lists v list.now) kept.new }
{
    for d in 0..kept.len() {
        kept[d].write(closed, &floors[d], d as u32, v, list);
    }
}

// What the whole way along a list tells of it, brought into the ranges that `Early` names. It stays a bound, since no
// schedule has cumuls outside of `0..=2^36`.
#[inline(always)]
fn early_of(guide: &Guide, whole: Way) -> Early
    requires { IsWholeWay guide.now.model.now whole }
    ensures { (list : List ℕ) → whole ≡ whole_way guide.now.model.now guide.now.d guide.now.v list
        → IsEarly guide.now.model.now guide.now.d guide.now.v list result }
{
    let span = guide.span_by(whole);
    Early {
        last: whole.time.min(HORIZON),
        span: span.min(HORIZON).max(-HORIZON),
    }
}
