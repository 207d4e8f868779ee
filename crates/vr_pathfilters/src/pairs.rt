//! The filter of pickup and delivery pairs.

ghost use Rattle.std.specs.Prelude.{◌≡◌, ◌+◌, ◌<◌, ◌≤◌, ℕ, All, Bool, true, false, List, length};
ghost use Rattle.std.specs.Prelude.{IsOk, IsTrue, IfOk, OnOk, OnErr};
ghost use Rattle.std.specs.List.{list_all};
ghost use Rattle.vr_model.specs.routes.Rules.{serves_pair};
ghost use Rattle.vr_model.specs.tables.Tables.{vehicle_at, visits};
ghost use Rattle.vr_model.specs.tables.WellFormed.{IsWellFormed};
ghost use Rattle.vr_lists.specs.Pairs.{keeps_pairs};
ghost use Rattle.vr_routes.specs.Changes.{IsMadeOn, after};
ghost use Rattle.vr_routes.specs.Pieces.{ListAfter, changed, joined, part_at};
ghost use Rattle.vr_routes.specs.Tours.{Tours};
ghost use Rattle.vr_reach.specs.Lists.{IsTour};
ghost use Rattle.vr_pathfilters.specs.Between.{changed_list, list_before};
ghost use Rattle.vr_pathfilters.specs.Counted.{AreCounted};
ghost use Rattle.vr_pathfilters.specs.Replaced.{takes_turns_between};
ghost use Rattle.vr_pathfilters.specs.Lists.{holds_of_each};
ghost use Rattle.vr_pathfilters.specs.ListFilters.{StandsBy};
ghost use Rattle.vr_pathfilters.specs.TourLists.{KeepRule};
ghost use Rattle.vr_pathfilters.specs.Pairs.{AreAllCounted, IsListCounted, KnowsPairs, KnowsTours};

use crate::lists::{ListFilter, ListRule};
use crate::new_lists::{Between, NewList, mark};
use crate::parts::write_between;
use crate::policies::{NewCounts, Turns};
use std::alloc::Global;
use vr_filter::PathFilter;
use vr_lists::NodeTables;
use vr_model::{Closed, Model, NoMemory, Policy};
use vr_plan::Lookups;
use vr_routes::{Change, Routes, Row};

/// The rule that a list serves each pair in order and keeps the policy of its vehicle.
#[derive(Drop)]
pub struct PairRule<'m> {
    lookups: Lookups<'m>,
    tables: PairTables,
}

// What is counted of lists, and what is written over while changes are asked about.
#[derive(Drop)]
struct PairTables {
    // room for the nodes that a change puts between the ends of a list, and at a commit for a whole list
    list: Row,
    // room for the place of each node between the ends there
    marks: [u32; 1000],
    // what is picked up and delivered along the lists of vehicles whose policy asks for turns
    turns: Turns,
}

// Whether the list of a vehicle serves each pair, with other nodes between the ends that it keeps. It asks the pairs of
// these nodes, and of those that were between the ends and are there no more.
fn serves_between(node_tables: &NodeTables<'_>, ends: &Between) -> bool
    requires before { IsTrue (list_all (serves_pair (list_before ends.now)) node_tables.now.pairs) }
    ensures { result ≡ list_all (serves_pair (changed_list ends.now)) node_tables.now.pairs }
{
    // the read tells contracts that the model is well formed
    let _model = node_tables.model();
    let old = ends.routes.list(ends.v);
    let new = NewList { ends: *ends };
    new.serves_each(node_tables, ends.middle)
        && new.serves_unmarked(
            node_tables,
            &old[ends.front as usize..ends.behind as usize],
            ends.middle,
            ends.marks,
        )
}

// Whether the pairs of the list of a vehicle come in turn, with other nodes between the ends that it keeps. They came
// in turn before, so it asks the pairs of the new nodes alone.
fn takes_turns(node_tables: &NodeTables<'_>, turns: &Turns, policy: Policy, ends: &Between) -> bool
    requires listed { AreCounted node_tables.now (list_before ends.now) turns.now.listed }
    requires between { AreCounted node_tables.now ends.now.middle.now turns.now.between }
    ensures { result ≡ takes_turns_between node_tables.now policy (list_before ends.now) ends.now.front ends.now.behind
        ends.now.middle.now }
{
    let old = ends.routes.list(ends.v);
    let counted = NewCounts::of(
        node_tables,
        turns,
        old,
        ends.front,
        ends.behind,
        ends.middle,
    );
    let new = NewList { ends: *ends };
    new.come_in_turn(policy, &counted, ends.middle)
}

// The policy of a vehicle.
fn policy_of(node_tables: &NodeTables<'_>, v: u32) -> Policy
    requires vehicle { v < length node_tables.now.vehicles }
    ensures { result ≡ (vehicle_at node_tables.now v).policy }
{
    node_tables.model().vehicles.get(v as usize).policy
}

// Counts a list of vehicle `v` if the policy of the vehicle asks for turns.
fn count_list(node_tables: &NodeTables<'_>, v: u32, list: &[u32], turns: &mut Turns)
    requires vehicle { v < length node_tables.now.vehicles }
    requires tour { IsTour node_tables.now list.now }
    requires few { length list.now ≤ 1000 }
    ensures { IsListCounted node_tables.now v list.now turns.old.listed turns.new.listed }
{
    let vehicle = node_tables.model().vehicles.get(v as usize);
    if !Turns::are_asked(vehicle.policy) {
        return;
    }
    turns.put(node_tables, list);
}

impl PairTables {
    // Whether the list that part `k` of a change gives its vehicle keeps the rule, if the list before kept it.
    fn keeps(
        &mut self,
        node_tables: &NodeTables<'_>,
        routes: &Routes,
        change: &Change,
        k: usize,
    ) -> bool
        requires knows { KnowsPairs node_tables.now self.old.turns.listed routes.now }
        requires made { IsMadeOn routes.now change.now }
        requires part { k < length change.now }
        requires before { IsTrue (holds_of_each (keeps_pairs node_tables.now) routes.now.lists) }
        ensures answer { result ≡ keeps_pairs node_tables.now (part_at change.now k).vehicle
            (joined routes.now.lists (part_at change.now k).pieces) }
        ensures listed { self.new.turns.listed ≡ self.old.turns.listed }
    {
        if node_tables.model().pairs.is_empty() {
            return true;
        }
        let splice = write_between(routes, change, k, &mut self.list);
        mark(self.list.as_slice(), &mut self.marks);
        let between = Between {
            routes,
            v: splice.vehicle,
            front: splice.front,
            behind: splice.behind,
            middle: self.list.as_slice(),
            marks: &self.marks,
        };
        // asked before the turns: these tell of the policy only if the list serves its pairs
        if !serves_between(node_tables, &between) {
            return false;
        }
        let policy = policy_of(node_tables, splice.vehicle);
        if !Turns::are_asked(policy) {
            return true;
        }
        self.turns.put_between(node_tables, between.middle);
        takes_turns(node_tables, &self.turns, policy, &between)
    }

    // Counts the list that part `k` of a change gives its vehicle if the policy of the vehicle asks for turns.
    fn count_part(
        &mut self,
        node_tables: &NodeTables<'_>,
        routes: &Routes,
        change: &Change,
        k: usize,
    )
        requires tours { KnowsTours node_tables.now routes.now }
        requires made { IsMadeOn routes.now change.now }
        requires part { k < length change.now }
        ensures { IsListCounted node_tables.now (part_at change.now k).vehicle
            (joined routes.now.lists (part_at change.now k).pieces) self.old.turns.listed self.new.turns.listed }
    {
        routes.write_after(change, k, &mut self.list);
        count_list(
            node_tables,
            change.vehicle(k),
            self.list.as_slice(),
            &mut self.turns,
        );
    }

    // Counts the lists of all parts of a change.
    fn commit(&mut self, node_tables: &NodeTables<'_>, routes: &Routes, change: &Change)
        requires knows { KnowsPairs node_tables.now self.old.turns.listed routes.now }
        requires made { IsMadeOn routes.now change.now }
        ensures { KnowsPairs node_tables.now self.new.turns.listed (after routes.now change.now) }
    {
        for k in 0..change.parts() {
            self.count_part(node_tables, routes, change, k);
        }
    }
}

impl<'m> ListRule for PairRule<'m> {
    ghost rule = { λ r v list. keeps_pairs r.lookups.closed.model.now v list };

    ghost knows = { λ r tours. KnowsPairs r.lookups.closed.model.now r.tables.turns.listed tours };

    fn keeps(&mut self, routes: &Routes, change: &Change, k: usize) -> bool {
        self.tables.keeps(self.lookups.nodes(), routes, change, k)
    }

    fn commit(&mut self, routes: &Routes, change: &Change) {
        self.tables.commit(self.lookups.nodes(), routes, change);
    }
}

// Counts the list of each vehicle whose policy asks for turns.
fn count_all(node_tables: &NodeTables<'_>, routes: &Routes, turns: &mut Turns)
    requires tours { KnowsTours node_tables.now routes.now }
    ensures { AreAllCounted node_tables.now routes.now.lists turns.new.listed }
{
    for v in 0..routes.vehicles() {
        count_list(node_tables, v, routes.list(v), turns);
    }
}

/// Lets a change pass if each list afterwards serves each pair in order and keeps the policy of its vehicle. In
/// OR-Tools it is `PickupDeliveryFilter`, by `AddPickupAndDelivery` and `SetPickupAndDeliveryPolicyOfVehicle`.
///
/// A change keeps both ends of a list. The filter looks at the nodes that are between them afterwards, and at those
/// that are gone from there. It does so whatever the policy of the vehicle is. In a model without pairs it judges a
/// change without a look at any list. It takes memory only when it is opened.
pub type PairFilter<'m> = ListFilter<PairRule<'m>>;

impl<'m> PairFilter<'m> {
    /// A filter in sync with the lists of routes, which keep the rule. The only refusal is want of memory. Tests alone
    /// call it; `vr_judge` calls `over`.
    pub fn open(
        alloc: Global,
        model: &'m Model,
        routes: &Routes,
    ) -> Result<PairFilter<'m>, NoMemory>
        requires well_formed { IsWellFormed model.now }
        requires visits { routes.now.visits ≡ visits model.now }
        requires many { length routes.now.lists ≡ length model.now.vehicles }
        requires rule { IsTrue (holds_of_each (keeps_pairs model.now) routes.now.lists) }
        ensures holds { IfOk result (λ filter. ⟦<PairFilter<'static> as PathFilter>⟧.holds filter
            ≡ holds_of_each (keeps_pairs model.now)) }
        ensures stands { IfOk result (λ filter. ⟦<PairFilter<'static> as PathFilter>⟧.stands_at filter routes.now) }
        ensures weight { IfOk result (λ filter. (before later : List (List ℕ))
            → ⟦<PairFilter<'static> as PathFilter>⟧.weight filter before later ≡ 0) }
    {
        let lookups = Lookups::open(alloc, Closed { model })?;
        PairFilter::over(&lookups, routes)
    }

    /// The same, over what was looked up of the model. It takes no memory; `NoMemory` only if as many already share
    /// what was looked up as can be counted.
    pub fn over(lookups: &Lookups<'m>, routes: &Routes) -> Result<PairFilter<'m>, NoMemory>
        requires { KeepRule keeps_pairs lookups.now.closed.model.now routes.now }
        ensures holds { IfOk result (λ filter. ⟦<PairFilter<'static> as PathFilter>⟧.holds filter
            ≡ holds_of_each (keeps_pairs lookups.now.closed.model.now)) }
        ensures stands { IfOk result (λ filter. ⟦<PairFilter<'static> as PathFilter>⟧.stands_at filter routes.now) }
        ensures weight { IfOk result (λ filter. (before later : List (List ℕ))
            → ⟦<PairFilter<'static> as PathFilter>⟧.weight filter before later ≡ 0) }
    {
        // neither does anything: contracts learn that no visit is there twice, and that lists have visits alone
        routes.know_once();
        routes.know_entries();
        let mut turns = Turns::new();
        count_all(lookups.nodes(), routes, &mut turns);
        Ok(ListFilter {
            rule: PairRule {
                lookups: lookups.share()?,
                tables: PairTables {
                    list: Row::new(),
                    marks: [0; 1000],
                    turns,
                },
            },
            is_prepared: false,
        })
    }
}
