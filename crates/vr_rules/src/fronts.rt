//! What a vehicle reaches at the end of a list that grows. It tells whether an item may come next, without going along
//! the list anew.

ghost use Rattle.std.specs.Prelude.{◌≡◌, ◌<◌, ◌≤◌, ◌++◌, [], ◌∷◌, All, IfOk, IsTrue, OnOk, length};
ghost use Rattle.std.specs.List.{list_all};
ghost use Rattle.vr_model.specs.tables.Tables.{breaks_of, dimension_at, is_visit as is_visit_of};
ghost use Rattle.vr_model.specs.tables.WellFormed.{IsBreak};
ghost use Rattle.vr_model.specs.schedules.Lines.{line};
ghost use Rattle.vr_model.specs.schedules.Choices.{is_feasible};
ghost use Rattle.vr_steps.specs.Levels.{AreLevels};
ghost use Rattle.vr_rules.specs.Fronts.{tail as tail_of, AreFronts, AreReachedBehind, AreVisitSets, IsDriven, IsFront};
ghost use Rattle.vr_rules.specs.Fronts.{AreFrontsOf, IsFrontOf, IsStopSet};
ghost use Rattle.vr_model.specs.routes.Rules.{is_route_open};
ghost use Rattle.vr_lists.specs.Pairs.{keeps_pairs};
ghost use Rattle.vr_rules.specs.Placing.{item_nodes};
ghost use Rattle.vr_rules.specs.RoutesOpen.{is_feasible_in_each};
ghost use Rattle.vr_steps.specs.declared.stops.StopName.TheVariants.{Visit};

use crate::allowed::allows_item;
use crate::items::Item;
use std::alloc::Global;
use vr_lists::{PairPlaces, keeps_pairs};
use vr_model::{Closed, Model, NoMemory};
use vr_plan::Lookups;
use vr_reach::Walk;
use vr_spans::Spans;
use vr_steps::{Breaks, Levels, StopName, allowed_at, hop, start_levels};

// What a vehicle reaches in one dimension at the end of its list, and what the stops allow that may come next.
#[derive(Drop)]
pub(crate) struct Front {
    dimension: u32,
    vehicle: u32,
    breaks: Breaks,
    // of each node what it allows, nothing if it is no visit
    visits: Vec<Spans>,
    // what the end of the vehicle allows
    ending: Spans,
    // what is reached at the last visit, or at the start of an empty list, by how many breaks are taken by then
    here: Levels,
}

/// The node at which the next arc begins: the last visit of the list, or the start of vehicle `v` if the list is empty.
/// `vr_first_arc` asks it too, for what that arc costs.
pub fn last_stop(model: &Model, v: u32, list: &[u32]) -> u32
    requires { v < length model.now.vehicles }
    ensures { result ≡ tail_of model.now v list.now }
{
    match list.last() {
        Some(&node) => node,
        None => model.vehicles.get(v as usize).start,
    }
}

// A vehicle in a dimension, of which fronts are written; `vr_reach` has its own for what is looked up once.
#[derive(Clone, Copy)]
struct VehicleIn<'m> {
    closed: Closed<'m>,
    d: u32,
    v: u32,
    ghost dimension: { d < length closed.model.now.dimensions },
    ghost vehicle: { v < length closed.model.now.vehicles },
}

// What a node allows, if it is a visit.
fn visit_set(alloc: Global, of: &VehicleIn<'_>, node: u32) -> Result<Spans, NoMemory>
    ensures { IfOk result (λ set. IsTrue (is_visit_of of.now.closed.model.now node)
        → IsStopSet of.now.closed.model.now of.now.d of.now.v (Visit node) set) }
{
    let model = of.closed.model;
    if !model.is_visit(node) {
        return Ok(Spans::new(alloc));
    }
    allowed_at(alloc, model, of.d, of.v, StopName::Visit(node))
}

// What each visit allows.
fn visit_sets(alloc: Global, of: &VehicleIn<'_>) -> Result<Vec<Spans>, NoMemory>
    ensures { IfOk result (λ sets. AreVisitSets of.now.closed.model.now of.now.d of.now.v sets.items) }
{
    let closed = of.closed;
    let mut sets = Vec::with_capacity(alloc, closed.model.nodes as usize)?;
    for node in 0..closed.model.nodes {
        sets.push(visit_set(alloc, of, node)?)?;
    }
    Ok(sets)
}

// What the vehicle reaches at its start.
fn levels_at_start(alloc: Global, of: &VehicleIn<'_>, breaks: &Breaks) -> Result<Levels, NoMemory>
    requires breaks { breaks.now ≡ breaks_of (dimension_at of.now.closed.model.now of.now.d) of.now.v }
    requires each_break { All IsBreak breaks.now }
    requires few_breaks { length breaks.now ≤ 8 }
    ensures form { IfOk result (AreLevels breaks.now) }
    ensures reached { IfOk result (AreReachedBehind of.now.closed.model.now of.now.d of.now.v []) }
{
    let start = allowed_at(alloc, of.closed.model, of.d, of.v, StopName::Start)?;
    start_levels(alloc, &start, breaks)
}

// A list of a vehicle, and an item that may come next.
#[derive(Clone, Copy)]
struct Longer<'m, 'l> {
    closed: Closed<'m>,
    v: u32,
    list: &'l [u32],
    item: Item,
    ghost visits: { IsTrue (list_all (is_visit_of closed.model.now) list.now) },
    ghost item_visits: { IsTrue (list_all (is_visit_of closed.model.now) (item_nodes item)) },
}

impl Front {
    // At the start of the vehicle.
    fn at_start(alloc: Global, of: &VehicleIn<'_>) -> Result<Front, NoMemory>
        ensures { IfOk result (IsFrontOf of.now.closed.model.now of.now.d of.now.v []) }
    {
        let (model, d, v) = (of.closed.model, of.d, of.v);
        let breaks = Breaks::of(model.dimensions.get(d as usize), v);
        let here = levels_at_start(alloc, of, &breaks)?;
        let ending = allowed_at(alloc, model, d, v, StopName::End)?;
        let visits = visit_sets(alloc, of)?;
        Ok(Front {
            dimension: d,
            vehicle: v,
            breaks,
            visits,
            ending,
            here,
        })
    }

    // Lets a walk cross the arc from the end of the list to a visit.
    fn leave(
        &self,
        walk: &mut Walk,
        closed: Closed<'_>,
        list: &[u32],
        node: u32,
    ) -> Result<(), NoMemory>
        requires front { IsFront closed.model.now list.now self.now }
        requires visits { IsTrue (list_all (is_visit_of closed.model.now) list.now) }
        requires visit { IsTrue (is_visit_of closed.model.now node) }
        ensures reached { OnOk result (AreReachedBehind closed.entry.model.now self.now.dimension self.now.vehicle
            (list.now ++ node ∷ []) walk.new) }
        ensures levels { OnOk result (AreLevels self.now.breaks walk.new) }
    {
        let origin = last_stop(closed.model, self.vehicle, list);
        let arc = hop(closed.model, self.dimension, self.vehicle, origin, node);
        let next = &self.visits[node as usize];
        walk.cross_from(&self.here, arc, next, &self.breaks)
    }

    // Lets a walk go on from the end of the list to the last node of an item.
    fn walk_item(&self, walk: &mut Walk, longer: &Longer<'_, '_>) -> Result<(), NoMemory>
        requires { IsFront longer.now.closed.model.now longer.now.list.now self.now }
        ensures reached { OnOk result (AreReachedBehind longer.now.closed.model.now self.now.dimension self.now.vehicle
            (longer.now.list.now ++ item_nodes longer.now.item) walk.new) }
        ensures levels { OnOk result (AreLevels self.now.breaks walk.new) }
    {
        let (closed, list) = (longer.closed, longer.list);
        match longer.item {
            Item::Visit(node) => self.leave(walk, closed, list, node),
            Item::PickupAndDelivery(pickup, delivery) => {
                self.leave(walk, closed, list, pickup)?;
                let arc = hop(closed.model, self.dimension, self.vehicle, pickup, delivery);
                let next = &self.visits[delivery as usize];
                walk.cross(arc, next, &self.breaks)
            }
        }
    }

    // Whether the line of the list with the item at its end has a schedule. The walk is at the last node of the item.
    fn ends(&self, walk: &mut Walk, longer: &Longer<'_, '_>) -> Result<bool, NoMemory>
        requires front { IsFront longer.now.closed.model.now longer.now.list.now self.now }
        requires driven { IsDriven longer.now.closed.model.now (longer.now.list.now ++ item_nodes longer.now.item) }
        requires here { AreReachedBehind longer.now.closed.model.now self.now.dimension self.now.vehicle
            (longer.now.list.now ++ item_nodes longer.now.item) walk.old }
        requires form { AreLevels self.now.breaks walk.old }
        ensures { IfOk result (λ ends. ends
            ≡ is_feasible (line longer.now.closed.model.now self.now.dimension self.now.vehicle
            (longer.now.list.now ++ item_nodes longer.now.item))) }
    {
        let closed = longer.closed;
        let end = closed.model.vehicles.get(self.vehicle as usize).end;
        let last = longer.item.last();
        let arc = hop(closed.model, self.dimension, self.vehicle, last, end);
        walk.cross(arc, &self.ending, &self.breaks)?;
        Ok(walk.ends(&self.breaks))
    }

    // Whether the line of the list with the item at its end has a schedule.
    fn feasible_with(&self, walk: &mut Walk, longer: &Longer<'_, '_>) -> Result<bool, NoMemory>
        requires front { IsFront longer.now.closed.model.now longer.now.list.now self.now }
        requires driven { IsDriven longer.now.closed.model.now (longer.now.list.now ++ item_nodes longer.now.item) }
        ensures { IfOk result (λ feasible. feasible
            ≡ is_feasible (line longer.now.closed.model.now self.now.dimension self.now.vehicle
            (longer.now.list.now ++ item_nodes longer.now.item))) }
    {
        self.walk_item(walk, longer)?;
        self.ends(walk, longer)
    }

    // Moves to the end of the list with the item at its end.
    fn advance(&mut self, walk: &mut Walk, longer: &Longer<'_, '_>) -> Result<(), NoMemory>
        requires front { IsFront longer.now.closed.model.now longer.now.list.now self.old }
        ensures front { OnOk result (IsFront longer.now.closed.model.now
            (longer.now.list.now ++ item_nodes longer.now.item) self.new) }
        ensures dimension { OnOk result (self.new.dimension ≡ self.old.dimension) }
        ensures vehicle { OnOk result (self.new.vehicle ≡ self.old.vehicle) }
    {
        self.walk_item(walk, longer)?;
        walk.hand_over(&mut self.here);
        Ok(())
    }
}

// Whether the line of the list with the item at its end has a schedule in each dimension.
fn is_feasible_with(
    fronts: &Vec<Front>,
    walk: &mut Walk,
    longer: &Longer<'_, '_>,
) -> Result<bool, NoMemory>
    requires fronts { AreFronts longer.now.closed.model.now longer.now.v longer.now.list.now fronts.now.items }
    requires driven { IsDriven longer.now.closed.model.now (longer.now.list.now ++ item_nodes longer.now.item) }
    ensures { IfOk result (λ answer. answer ≡ is_feasible_in_each longer.now.closed.model.now longer.now.v
        (longer.now.list.now ++ item_nodes longer.now.item)) }
{
    for d in 0..fronts.len() {
        if !fronts[d].feasible_with(walk, longer)? {
            return Ok(false);
        }
    }
    Ok(true)
}

// Moves each front to the end of the list with the item at its end.
fn advance_each(
    fronts: &mut Vec<Front>,
    walk: &mut Walk,
    longer: &Longer<'_, '_>,
) -> Result<(), NoMemory>
    requires { AreFronts longer.now.closed.model.now longer.now.v longer.now.list.now fronts.old.items }
    ensures { OnOk result (AreFronts longer.now.closed.model.now longer.now.v
        (longer.now.list.now ++ item_nodes longer.now.item) fronts.new.items) }
{
    for d in 0..fronts.len() {
        fronts[d].advance(walk, longer)?;
    }
    Ok(())
}

// The fronts at the start of a vehicle.
fn fronts_at_start(alloc: Global, closed: Closed<'_>, v: u32) -> Result<Vec<Front>, NoMemory>
    requires { v < length closed.model.now.vehicles }
    ensures { IfOk result (λ fronts. AreFronts closed.entry.model.now v [] fronts.items) }
{
    let mut fronts = Vec::with_capacity(alloc, closed.model.dimensions.len())?;
    for d in 0..closed.model.dimensions.len() {
        let of = VehicleIn {
            closed,
            d: d as u32,
            v,
        };
        fronts.push(Front::at_start(alloc, &of)?)?;
    }
    Ok(fronts)
}

// Moves each front along a list.
fn go_along(
    fronts: &mut Vec<Front>,
    walk: &mut Walk,
    closed: Closed<'_>,
    v: u32,
    list: &[u32],
) -> Result<(), NoMemory>
    requires fronts { AreFronts closed.model.now v [] fronts.old.items }
    requires visits { IsTrue (list_all (is_visit_of closed.model.now) list.now) }
    ensures { OnOk result (AreFronts closed.entry.model.now v list.now fronts.new.items) }
{
    for k in 0..list.len() {
        let next = Longer {
            closed,
            v,
            list: &list[..k],
            item: Item::Visit(list[k]),
        };
        advance_each(fronts, walk, &next)?;
    }
    Ok(())
}

// A list with an item at its end.
fn appended(alloc: Global, list: &[u32], item: Item) -> Result<Vec<u32>, NoMemory>
    ensures { IfOk result (λ longer. longer.items ≡ list.now ++ item_nodes item) }
{
    let mut longer = Vec::with_capacity(alloc, list.len() + 2)?;
    longer.extend_from_slice(list)?;
    match item {
        Item::Visit(node) => longer.push(node)?,
        Item::PickupAndDelivery(pickup, delivery) => {
            longer.extend_from_slice(&[pickup, delivery])?
        }
    }
    Ok(longer)
}

// Whether the list with the item at its end serves each pair in order, and keeps the policy of the vehicle. It takes no
// memory if the model has no pairs.
fn keeps_pairs_with(room: &mut Room, of: &Longer<'_, '_>) -> Result<bool, NoMemory>
    requires vehicle { of.now.v < length of.now.closed.model.now.vehicles }
    requires driven { IsDriven of.now.closed.model.now (of.now.list.now ++ item_nodes of.now.item) }
    ensures { IfOk result (λ keeps. keeps
        ≡ keeps_pairs of.now.closed.model.now of.now.v (of.now.list.now ++ item_nodes of.now.item)) }
{
    let model = of.closed.model;
    if model.pairs.is_empty() {
        return Ok(true);
    }
    let longer = appended(room.alloc, of.list, of.item)?;
    Ok(keeps_pairs(model, of.v, &longer, &mut room.pairs))
}

/// Scratch that is written over while items are tried at the end of a list.
#[derive(Drop)]
pub struct Room {
    alloc: Global,
    walk: Walk,
    pairs: PairPlaces,
}

impl Room {
    /// It takes no memory.
    pub fn new(alloc: Global) -> Room {
        Room {
            alloc,
            walk: Walk::new(alloc),
            pairs: PairPlaces::new(),
        }
    }
}

/// What a vehicle reaches in each dimension at the end of its list. It is kept while the list grows, so an item is
/// tried there without going along the list anew. Only pairs are asked of the whole list.
#[derive(Drop)]
pub struct Fronts {
    each: Vec<Front>,
}

impl Fronts {
    /// Those of vehicle `v` with a list. Cheapest arcs asks for those of an empty one; along any other it goes once.
    pub fn open(
        room: &mut Room,
        closed: Closed<'_>,
        v: u32,
        list: &[u32],
    ) -> Result<Fronts, NoMemory>
        requires vehicle { v < length closed.model.now.vehicles }
        requires visits { IsTrue (list_all (is_visit_of closed.model.now) list.now) }
        ensures { IfOk result (AreFrontsOf closed.entry.model.now v list.now) }
    {
        let mut each = fronts_at_start(room.alloc, closed, v)?;
        go_along(&mut each, &mut room.walk, closed, v, list)?;
        Ok(Fronts { each })
    }

    /// Whether vehicle `v`, which may drive its list, may drive it with an item at its end, as `route_open` says it. It
    /// takes no memory if the model has no pairs, the vehicle no breaks, and no set of cumuls more than four runs.
    /// Pairs are asked last, since for them the list is written out.
    pub fn may_append(
        &self,
        room: &mut Room,
        lookups: &Lookups<'_>,
        v: u32,
        list: &[u32],
        item: Item,
    ) -> Result<bool, NoMemory>
        requires vehicle { v < length lookups.now.closed.model.now.vehicles }
        requires fronts { AreFrontsOf lookups.now.closed.model.now v list.now self.now }
        requires stands { IsTrue (is_route_open lookups.now.closed.model.now v list.now) }
        requires driven { IsDriven lookups.now.closed.model.now (list.now ++ item_nodes item) }
        ensures { IfOk result (λ may. may
            ≡ is_route_open lookups.now.closed.model.now v (list.now ++ item_nodes item)) }
    {
        if !allows_item(lookups.nodes(), v, item) {
            return Ok(false);
        }
        let longer = Longer {
            closed: lookups.closed,
            v,
            list,
            item,
        };
        if !is_feasible_with(&self.each, &mut room.walk, &longer)? {
            return Ok(false);
        }
        keeps_pairs_with(room, &longer)
    }

    /// Moves to the end of the list with an item at its end. After `NoMemory` nothing is said of what is reached.
    pub fn append(
        &mut self,
        room: &mut Room,
        closed: Closed<'_>,
        v: u32,
        list: &[u32],
        item: Item,
    ) -> Result<(), NoMemory>
        requires fronts { AreFrontsOf closed.model.now v list.now self.old }
        requires driven { IsDriven closed.model.now (list.now ++ item_nodes item) }
        ensures { OnOk result (AreFrontsOf closed.entry.model.now v (list.now ++ item_nodes item) self.new) }
    {
        let longer = Longer {
            closed,
            v,
            list,
            item,
        };
        advance_each(&mut self.each, &mut room.walk, &longer)
    }
}
