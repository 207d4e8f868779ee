//! The best place of an item in one route.

ghost use Rattle.std.specs.Prelude.{◌≡◌, ◌<◌, ◌≤◌, ◌≤ℤ◌, ◌<ℤ◌, ◌^◌, ℕ, IfOk, IsTrue, None, length, map, neg_ℤ};
ghost use Rattle.std.specs.Prelude.{pos, suc};
ghost use Rattle.std.specs.Prelude.{◌&&◌};
ghost use Rattle.std.specs.List.{list_all, list_any};
ghost use Rattle.vr_model.specs.routes.Costs.{assigned, parts_at};
ghost use Rattle.vr_model.specs.routes.Routes.{is_distinct};
ghost use Rattle.vr_model.specs.tables.Tables.{dimension_at, is_visit, vehicle_at};
ghost use Rattle.vr_model.specs.tables.WellFormed.{IsWellFormed};
ghost use Rattle.vr_rules.specs.Placing.{fits_beside, item_nodes, AreBuilt};
ghost use Rattle.vr_rules.specs.Totals.{AreInRange};
ghost use Rattle.vr_lists.specs.Pairs.{keeps_pairs as keeps_pairs_of};
ghost use Rattle.vr_model.specs.routes.Rules.{allows_vehicle, is_grouped as is_grouped_of, is_route_open};
ghost use Rattle.vr_ruin.specs.Increases.{visit_increase};
ghost use Rattle.vr_ruin.specs.Placings.{best_of, item_in, no_more_than, offer_for, placed, placings_of};
ghost use Rattle.vr_ruin.specs.Placings.{weigh as weigh_of, IsAbove};
ghost use Rattle.vr_ruin.specs.Carrying.{carries_all, AreLoads};
ghost use Rattle.vr_ruin.specs.Known.{IsKnownList, IsReady};
ghost use Rattle.vr_ruin.specs.Placings.{AreWithin, MayHold};
ghost use Rattle.vr_ruin.specs.Timeless.{costs_no_time as costs_no_time_in, is_timeless as is_timeless_of};
ghost use Rattle.vr_rules.specs.declared.items.Item.TheVariants.{PickupAndDelivery, Visit};

use crate::carrying::Carrier;
use crate::columns::{MatrixColumns, arcs_to, columns_of};
use crate::increase::{Driven, increase_of, visit_increase};
use crate::known::{Changed, KnownRoute, goes_in_each, shared_with};
use crate::places::next_place;
use crate::placing::{Offer, Placing, bound_of, improves, within_limit, write_placed};
use std::alloc::Global;
use std::marker::Model;
use vr_lists::{NodeTables, PairPlaces, keeps_pairs};
use vr_model::{NoMemory, Parts, Seq};
use vr_plan::Lookups;
use vr_reach::Walk;
use vr_routes::Routes;
use vr_rules::{Item, Rules, active_marks, groups_have_room};

/// What is asked of one route after another. Contracts see the model.
#[derive(Drop)]
pub(crate) struct Asker<'m> {
    lookups: Lookups<'m>,
    rules: Rules<'m>,
    carrier: Carrier,
    // the columns of the cost matrices
    columns: Vec<MatrixColumns>,
    // whether no schedules cost anything
    timeless: bool,
    // a list with an item placed in it, and what is written over when it is tested
    longer: Seq<u32>,
    walk: Walk,
    pairs: PairPlaces,
}

impl<'m> Model for Asker<'m> {
    ghost use Rattle.vr_model.specs.declared.records.Model.{Model as Defined};
    ghost use Rattle.vr_ruin.specs.Timeless.{IsAsker};

    ghost Value = { Defined };

    ghost view = { λ a. a.lookups.closed.model.now };

    ghost invariant = { λ a. IsAsker a.lookups.closed.model.now a.rules a.carrier a.columns.items a.timeless };
}

/// The list of a vehicle, the rows of which are known.
#[derive(Clone, Copy)]
pub(crate) struct VehicleList<'l, 'k> {
    pub(crate) vehicle: u32,
    pub(crate) nodes: &'l [u32],
    pub(crate) known: &'k KnownRoute,
}

// Whether a list serves each pair in order and as the policy of vehicle `v` asks, and `v` may visit each of its nodes.
fn keeps_rest(lookups: &Lookups<'_>, v: u32, list: &[u32], pairs: &mut PairPlaces) -> bool
    requires vehicle { v < length lookups.now.closed.model.now.vehicles }
    requires visits { IsTrue (list_all (is_visit lookups.now.closed.model.now) list.now) }
    requires distinct { IsTrue (is_distinct list.now) }
    ensures { result ≡ (keeps_pairs_of lookups.now.closed.model.now v list.now
        && list_all (allows_vehicle lookups.now.closed.model.now v) list.now) }
{
    if !keeps_pairs(lookups.closed.model, v, list, pairs) {
        return false;
    }
    lookups.nodes().allows_each(v, list)
}

// Whether no schedules cost anything.
fn is_timeless(lookups: &Lookups<'_>) -> bool
    ensures { result ≡ is_timeless_of lookups.now.closed.model.now }
{
    let model = lookups.closed.model;
    for d in 0..model.dimensions.len() {
        if !costs_no_time(lookups, d as u32) {
            return false;
        }
    }
    true
}

// Whether no schedules cost anything in a dimension.
fn costs_no_time(lookups: &Lookups<'_>, d: u32) -> bool
    requires { d < length lookups.now.closed.model.now.dimensions }
    ensures { result ≡ costs_no_time_in (dimension_at lookups.now.closed.model.now d) }
{
    let model = lookups.closed.model;
    if model.dimensions.get(d as usize).global_span_cost != 0 {
        return false;
    }
    lookups.table(d).is_free
}

impl<'m> Asker<'m> {
    /// It fails only if memory runs out, as each question does.
    pub(crate) fn open(alloc: Global, lookups: &Lookups<'m>) -> Result<Asker<'m>, NoMemory>
        ensures { IfOk result (λ asker. asker ≡ lookups.now.closed.model.now) }
    {
        Ok(Asker {
            lookups: lookups.share()?,
            rules: Rules::over(alloc, lookups)?,
            carrier: Carrier::open(alloc, lookups.closed)?,
            columns: columns_of(alloc, lookups.closed)?,
            timeless: is_timeless(lookups),
            longer: Seq::new(alloc),
            walk: Walk::new(alloc),
            pairs: PairPlaces::new(),
        })
    }

    /// What was looked up of the model.
    pub(crate) fn lookups(&self) -> &Lookups<'m>
        ensures { result.now.closed.model.now ≡ self.now }
    {
        &self.lookups
    }

    /// For each dimension whether it is a load.
    pub(crate) fn loads(&self) -> &[bool]
        ensures { AreLoads self.now result.now }
    {
        &self.carrier.loads
    }

    /// The model is well formed. It does nothing.
    pub(crate) fn know(&self)
        ensures { IsWellFormed self.now }
    {
        let _closed = self.lookups.closed;
    }

    /// What was looked up of the nodes of the model.
    pub(crate) fn nodes(&self) -> &NodeTables<'m>
        ensures { result.now ≡ self.now }
    {
        self.lookups.nodes()
    }

    /// Whether vehicle `v` may drive a list of distinct visits.
    pub(crate) fn is_open(&mut self, v: u32, list: &[u32]) -> Result<bool, NoMemory>
        requires vehicle { v < length self.old.vehicles }
        requires visits { IsTrue (list_all (is_visit self.old) list.now) }
        requires distinct { IsTrue (is_distinct list.now) }
        ensures answer { IfOk result (λ answer. answer ≡ is_route_open self.old v list.now) }
        ensures model { self.new ≡ self.old }
    {
        self.rules.route_open(v, list)
    }

    /// Whether no group would get too many nodes from an item beside open routes.
    pub(crate) fn has_room(
        &self,
        alloc: Global,
        routes: &Routes,
        item: Item,
    ) -> Result<bool, NoMemory>
        requires { AreBuilt self.now routes.now.lists }
        ensures { IfOk result (λ room. room ≡ fits_beside self.now routes.now.lists (item_nodes item)) }
    {
        if !self.is_grouped(item) {
            return Ok(true);
        }
        let lookups = &self.lookups;
        let marks = active_marks(alloc, lookups.closed.model, routes)?;
        Ok(groups_have_room(lookups, &marks, item))
    }

    // Whether a node of an item is in a group.
    fn is_grouped(&self, item: Item) -> bool
        ensures { result ≡ list_any (is_grouped_of self.now) (item_nodes item) }
    {
        let nodes = self.lookups.nodes();
        match item {
            Item::Visit(node) => nodes.is_grouped(node),
            Item::PickupAndDelivery(pickup, delivery) => {
                nodes.is_grouped(pickup) || nodes.is_grouped(delivery)
            }
        }
    }

    /// What open routes cost, also if visits are missing that must be served.
    pub(crate) fn cost(&mut self, routes: &Routes) -> Result<Parts, NoMemory>
        requires built { AreBuilt self.old routes.now.lists }
        ensures parts { IfOk result (λ parts. parts ≡ parts_at self.old (assigned self.old routes.now.lists)) }
        ensures range { IfOk result AreInRange }
        ensures model { self.new ≡ self.old }
    {
        self.rules.cost_where_open(routes)
    }

    // An item at its places, with what that adds to the arc costs of a list.
    fn offer(&self, list: VehicleList<'_, '_>, placing: Placing) -> Offer
        requires vehicle { list.vehicle < length self.now.vehicles }
        requires within { AreWithin list.nodes.now placing }
        requires may { MayHold self.now list.nodes.now (item_in placing) }
        ensures { result ≡ offer_for self.now list.entry.vehicle list.entry.nodes.now placing }
    {
        let closed = self.lookups.closed;
        let driven = Driven {
            closed,
            vehicle: list.vehicle,
            nodes: list.nodes,
        };
        Offer {
            placing,
            vehicle: list.vehicle,
            increase: increase_of(&driven, placing),
        }
    }

    /// Whether no schedules cost anything.
    pub(crate) fn is_timeless(&self) -> bool
        ensures { result ≡ is_timeless_of self.now }
    {
        self.timeless
    }

    /// What the use of vehicle `v` costs.
    pub(crate) fn fixed(&self, v: u32) -> i64
        requires { v < length self.now.vehicles }
        ensures value { result ≡ (vehicle_at self.now v).fixed }
        ensures low { pos 0 ≤ℤ result }
        ensures high { result ≤ℤ pos (2 ^ 40) }
    {
        let closed = self.lookups.closed;
        closed.model.vehicles.get(v as usize).fixed
    }

    // Whether the vehicle of a list may drive it with an item placed in it, which it can carry. That is all of a plain
    // model. Else a walk goes through the part that differs.
    fn opens(&mut self, list: VehicleList<'_, '_>, placing: Placing) -> Result<bool, NoMemory>
        requires vehicle { list.vehicle < length self.old.vehicles }
        requires within { AreWithin list.nodes.now placing }
        requires may { MayHold self.old list.nodes.now (item_in placing) }
        requires ready { IsReady self.old list.vehicle list.nodes.now list.known.now (item_in placing) }
        ensures open { IfOk result (λ opens. opens
            ≡ is_route_open self.old list.entry.vehicle (placed list.entry.nodes.now placing)) }
        ensures model { self.new ≡ self.old }
    {
        if self.carrier.plain {
            return Ok(true);
        }
        write_placed(list.nodes, placing, &mut self.longer)?;
        let nodes = self.longer.as_slice();
        let changed = Changed {
            lookups: &self.lookups,
            vehicle: list.vehicle,
            known: list.known,
            nodes,
            shared: shared_with(list.nodes.len(), placing),
        };
        if !goes_in_each(&changed, &self.carrier.loads, &mut self.walk)? {
            return Ok(false);
        }
        if self.carrier.free {
            return Ok(true);
        }
        Ok(keeps_rest(&self.lookups, list.vehicle, nodes, &mut self.pairs))
    }

    /// The better of the best so far and an item at its places, which counts only if the list stays open. That is asked
    /// only if it would be the best.
    pub(crate) fn weigh(
        &mut self,
        list: VehicleList<'_, '_>,
        best: Option<Offer>,
        placing: Placing,
    ) -> Result<Option<Offer>, NoMemory>
        requires vehicle { list.vehicle < length self.old.vehicles }
        requires within { AreWithin list.nodes.now placing }
        requires may { MayHold self.old list.nodes.now (item_in placing) }
        requires ready { IsReady self.old list.vehicle list.nodes.now list.known.now (item_in placing) }
        ensures best { IfOk result (λ better. better ≡ weigh_of self.old list.entry.nodes.now best
            (offer_for self.old list.entry.vehicle list.entry.nodes.now placing)) }
        ensures model { self.new ≡ self.old }
    {
        let next = self.offer(list, placing);
        if !improves(best, next) {
            return Ok(best);
        }
        if self.opens(list, placing)? {
            Ok(Some(next))
        } else {
            Ok(best)
        }
    }

    // The first place of a visit from place `t` on at which it adds no more than a bound. Past all places if there is
    // none.
    fn next_below(&self, list: VehicleList<'_, '_>, node: u32, t: usize, bound: i64) -> usize
        requires vehicle { list.vehicle < length self.now.vehicles }
        requires may { MayHold self.now list.nodes.now (Visit node) }
        requires known { IsKnownList self.now list.vehicle list.nodes.now list.known.now }
        requires begins { t ≤ suc (length list.nodes.now) }
        ensures first { t ≤ result }
        ensures last { result ≤ suc (length list.entry.nodes.now) }
        ensures above { (u : ℕ) → t ≤ u → u < result
            → bound <ℤ visit_increase self.now list.entry.vehicle list.entry.nodes.now node u }
    {
        let closed = self.lookups.closed;
        let driven = Driven {
            closed,
            vehicle: list.vehicle,
            nodes: list.nodes,
        };
        let known = list.known;
        let costs = arcs_to(closed, &self.columns, list.vehicle, node);
        next_place(&driven, known.arcs.as_slice(), costs, node, t, bound)
    }

    /// The same, if there may be no bound.
    pub(crate) fn next(
        &self,
        list: VehicleList<'_, '_>,
        node: u32,
        t: usize,
        bound: Option<i64>,
    ) -> usize
        requires vehicle { list.vehicle < length self.now.vehicles }
        requires may { MayHold self.now list.nodes.now (Visit node) }
        requires known { IsKnownList self.now list.vehicle list.nodes.now list.known.now }
        requires begins { t ≤ suc (length list.nodes.now) }
        ensures first { t ≤ result }
        ensures last { result ≤ suc (length list.entry.nodes.now) }
        ensures above { (u : ℕ) → t ≤ u → u < result
            → IsAbove bound (visit_increase self.now list.entry.vehicle list.entry.nodes.now node u) }
    {
        match bound {
            None => t,
            Some(bound) => self.next_below(list, node, t, bound),
        }
    }

    // The best place of a visit, if it adds no more than a limit. Places that add more than that, or than the best so
    // far, are passed over.
    fn best_visit(
        &mut self,
        list: VehicleList<'_, '_>,
        node: u32,
        limit: Option<i64>,
    ) -> Result<Option<Offer>, NoMemory>
        requires vehicle { list.vehicle < length self.old.vehicles }
        requires may { MayHold self.old list.nodes.now (Visit node) }
        requires ready { IsReady self.old list.vehicle list.nodes.now list.known.now (Visit node) }
        ensures best { IfOk result (λ best. best ≡ no_more_than limit (best_of self.old list.entry.vehicle
            list.entry.nodes.now None (placings_of list.entry.nodes.now (Visit node)))) }
        ensures model { self.new ≡ self.old }
    {
        let n = list.nodes.len();
        let mut best = None;
        let mut t = 0;
        'places: while t <= n {
            let place = self.next(list, node, t, bound_of(best, limit));
            if place > n {
                return Ok(within_limit(best, limit));
            }
            best = self.weigh(list, best, Placing::One(node, place as u32))?;
            t = place + 1;
        }
        Ok(within_limit(best, limit))
    }

    /// What a visit before place `t` adds.
    pub(crate) fn alone(&self, list: VehicleList<'_, '_>, node: u32, t: usize) -> i64
        requires vehicle { list.vehicle < length self.now.vehicles }
        requires may { MayHold self.now list.nodes.now (Visit node) }
        requires place { t ≤ length list.nodes.now }
        ensures value { result ≡ visit_increase self.now list.entry.vehicle list.entry.nodes.now node t }
        ensures low { neg_ℤ (pos (2 ^ 40)) ≤ℤ result }
        ensures high { result ≤ℤ pos (2 ^ 41) }
    {
        let closed = self.lookups.closed;
        let driven = Driven {
            closed,
            vehicle: list.vehicle,
            nodes: list.nodes,
        };
        visit_increase(&driven, node, t)
    }

    /// The best places of an item in the list of a vehicle: those at which it adds least to the arc costs. Of these the
    /// first. `None` if the list is open with it at none, or if it adds more than a limit there.
    pub(crate) fn best(
        &mut self,
        list: VehicleList<'_, '_>,
        item: Item,
        limit: Option<i64>,
    ) -> Result<Option<Offer>, NoMemory>
        requires vehicle { list.vehicle < length self.old.vehicles }
        requires may { MayHold self.old list.nodes.now item }
        requires known { IsKnownList self.old list.vehicle list.nodes.now list.known.now }
        ensures best { IfOk result (λ best. best ≡ no_more_than limit (best_of self.old list.entry.vehicle
            list.entry.nodes.now None (placings_of list.entry.nodes.now item))) }
        ensures model { self.new ≡ self.old }
    {
        self.know();
        if !self.carries(list, item) {
            return Ok(None);
        }
        self.best_carried(list, item, limit)
    }

    // Whether the vehicle of a list can carry an item too.
    fn carries(&self, list: VehicleList<'_, '_>, item: Item) -> bool
        requires vehicle { list.vehicle < length self.now.vehicles }
        requires may { MayHold self.now list.nodes.now item }
        requires known { IsKnownList self.now list.vehicle list.nodes.now list.known.now }
        ensures { result ≡ carries_all self.now list.entry.vehicle list.entry.nodes.now (item_nodes item) }
    {
        let closed = self.lookups.closed;
        let driven = Driven {
            closed,
            vehicle: list.vehicle,
            nodes: list.nodes,
        };
        let known = list.known;
        self.carrier.carries(&driven, known.sums.as_slice(), item)
    }

    // The best places of an item that the vehicle of a list can carry too, if it adds no more than a limit there.
    fn best_carried(
        &mut self,
        list: VehicleList<'_, '_>,
        item: Item,
        limit: Option<i64>,
    ) -> Result<Option<Offer>, NoMemory>
        requires vehicle { list.vehicle < length self.old.vehicles }
        requires may { MayHold self.old list.nodes.now item }
        requires ready { IsReady self.old list.vehicle list.nodes.now list.known.now item }
        ensures best { IfOk result (λ best. best ≡ no_more_than limit (best_of self.old list.entry.vehicle
            list.entry.nodes.now None (placings_of list.entry.nodes.now item))) }
        ensures model { self.new ≡ self.old }
    {
        match item {
            Item::Visit(node) => self.best_visit(list, node, limit),
            Item::PickupAndDelivery(pickup, delivery) => {
                let best = self.best_pair(list, pickup, delivery)?;
                Ok(within_limit(best, limit))
            }
        }
    }
}
