//! The filter of groups.

ghost use Rattle.std.specs.Prelude.{◌≡◌, ◌+◌, ◌*◌, ◌<◌, ◌≤◌, ◌&&◌, ℕ, Bool, true, false, List, All, length, sum_by};
ghost use Rattle.std.specs.Prelude.{IsTrue, IsOk, IfOk, OnOk, OnErr};
ghost use Rattle.std.specs.List.{list_all};
ghost use Rattle.vr_model.specs.tables.Tables.{visits};
ghost use Rattle.vr_model.specs.tables.WellFormed.{IsWellFormed};
ghost use Rattle.vr_routes.specs.Changes.{IsMadeOn, after, NothingReady};
ghost use Rattle.vr_routes.specs.Pieces.{ListAfter, changed, nodes_of, IsWithin};
ghost use Rattle.vr_routes.specs.Tours.{Tours};
ghost use Rattle.vr_balance.specs.Balances.{IsBalance, IsTurnover};
ghost use Rattle.vr_filter.specs.Filters.{IsSameRule, IsSameWeight};
ghost use Rattle.vr_lists.specs.Nodes.{node_number};
ghost use Rattle.vr_pathfilters.specs.Groups.{keeps_groups, many_of, one_in_group, IsInPieces};
ghost use Rattle.vr_pathfilters.specs.Groups.{allows_number, allows_node, allows_pieces, KnowsGroups, IsGroupsReady};

use std::alloc::Global;
use std::sync::ledger::Ledger;
use vr_balance::{Balance, active_in};
use vr_filter::PathFilter;
use vr_lists::group_numbers;
use vr_model::{Closed, Model, NoMemory, Seq, Steps};
use vr_routes::{Change, Piece, Routes};

/// Lets a change pass if groups are kept afterwards (`AddDisjunction` in OR-Tools):
///
/// - no group has more active nodes than it may have;
/// - each visit in no group is active;
/// - each group without a penalty has as many active nodes as it may have.
///
/// It looks at the nodes of the pieces that come and go and at their groups. Once it is opened it takes no memory.
#[derive(Drop)]
pub struct GroupFilter<'m> {
    model: &'m Model,
    // for each node the number of its group; if it is in none, how many groups there are
    numbers: Seq<u32>,
    // what the change in hand brings and takes out; each question writes it over
    balance: Balance,
    // whether a change was made ready: contracts alone read it
    is_prepared: bool,
}

// The number of the group of a node; 0 of a number that is no node, which is not asked: lists have visits alone.
#[inline]
fn number(numbers: &Seq<u32>, node: u32) -> u32
    ensures { result ≡ node_number numbers.now node }
{
    if (node as usize) < numbers.len() {
        return *numbers.get(node as usize);
    }
    0
}

// How many of some nodes are of group g.
fn many_in(numbers: &Seq<u32>, nodes: &[u32], g: u32) -> usize
    ensures value { result ≡ sum_by (one_in_group numbers.now g) nodes.now }
    ensures few { result ≤ length nodes.now }
{
    let mut many = 0;
    for &node in nodes {
        if number(numbers, node) == g {
            many += 1;
        }
    }
    many
}

// How many nodes of a piece are of group g.
fn many_in_piece(numbers: &Seq<u32>, routes: &Routes, piece: Piece, g: u32) -> usize
    requires within { IsWithin routes.now.lists piece }
    ensures value { result ≡ sum_by (one_in_group numbers.now g) (nodes_of routes.now.lists piece) }
    ensures few { result ≤ 1000 }
{
    match piece {
        Piece::Node { node } => many_in(numbers, &[node], g),
        Piece::Chain {
            vehicle,
            from,
            to,
            ..
        } => many_in(
            numbers,
            &routes.list(vehicle)[from as usize..to as usize],
            g,
        ),
    }
}

// How many nodes of pieces are of group g.
fn many_in_pieces(numbers: &Seq<u32>, routes: &Routes, pieces: &[Piece], g: u32) -> usize
    requires within { All (IsWithin routes.now.lists) pieces.now }
    requires few { length pieces.now ≤ 18 }
    ensures value { result ≡ many_of numbers.now routes.now.lists pieces.now g }
    ensures few { IsInPieces result }
{
    let mut many = 0;
    for k in 0..pieces.len() {
        many += many_in_piece(numbers, routes, pieces[k], g);
    }
    many
}

// Whether `come` nodes of group `g` may come while `gone` go. If `g` is how many groups there are, it is asked of
// visits in no group. Such a visit is active, so it comes only if it goes too, and it may not go alone. A group without
// a penalty has as many active nodes as it may have, and keeps that number. A group with a penalty that may have two
// active nodes, and has two, lets one come if one goes.
fn allows(closed: Closed<'_>, routes: &Routes, g: u32, come: usize, gone: usize) -> bool
    requires few { IsInPieces come }
    requires few_too { IsInPieces gone }
    ensures { result ≡ allows_number closed.entry.model.now routes.now.lists g come gone }
{
    if come == gone {
        return true;
    }
    if g as usize >= closed.model.groups.len() {
        return false;
    }
    let group = closed.model.groups.get(g as usize);
    group.penalty.is_some()
        && (come <= gone || active_in(routes, group) + come <= group.max as usize + gone)
}

// Whether the groups of some nodes allow what comes and goes.
fn nodes_allow(filter: &GroupFilter<'_>, routes: &Routes, nodes: &[u32]) -> bool
    requires well_formed { IsWellFormed filter.now.model.now }
    requires within { IsTurnover routes.now.lists filter.now.balance }
    ensures { result ≡ list_all
        (allows_node filter.now.model.now filter.now.numbers routes.now.lists filter.now.balance) nodes.now }
{
    for &node in nodes {
        let g = number(&filter.numbers, node);
        let come = many_in_pieces(&filter.numbers, routes, filter.balance.come(), g);
        let gone = many_in_pieces(&filter.numbers, routes, filter.balance.gone(), g);
        if !allows(
            Closed {
                model: filter.model,
            },
            routes,
            g,
            come,
            gone,
        ) {
            return false;
        }
    }
    true
}

// Whether the groups of the nodes of a piece allow what comes and goes.
fn piece_allows(filter: &GroupFilter<'_>, routes: &Routes, piece: Piece) -> bool
    requires well_formed { IsWellFormed filter.now.model.now }
    requires within { IsTurnover routes.now.lists filter.now.balance }
    requires piece { IsWithin routes.now.lists piece }
    ensures { result ≡ list_all
        (allows_node filter.now.model.now filter.now.numbers routes.now.lists filter.now.balance)
        (nodes_of routes.now.lists piece) }
{
    match piece {
        Piece::Node { node } => nodes_allow(filter, routes, &[node]),
        Piece::Chain {
            vehicle,
            from,
            to,
            ..
        } => nodes_allow(
            filter,
            routes,
            &routes.list(vehicle)[from as usize..to as usize],
        ),
    }
}

// Whether the groups of the nodes of some pieces allow what comes and goes.
fn pieces_allow(filter: &GroupFilter<'_>, routes: &Routes, pieces: &[Piece]) -> bool
    requires well_formed { IsWellFormed filter.now.model.now }
    requires within { IsTurnover routes.now.lists filter.now.balance }
    requires pieces { All (IsWithin routes.now.lists) pieces.now }
    ensures { result ≡ allows_pieces filter.now.model.now filter.now.numbers routes.now.lists filter.now.balance
        pieces.now }
{
    for k in 0..pieces.len() {
        if !piece_allows(filter, routes, pieces[k]) {
            return false;
        }
    }
    true
}

// Whether the groups of all nodes that come or go allow it.
fn all_allow(filter: &GroupFilter<'_>, routes: &Routes) -> bool
    requires stands { KnowsGroups filter.now.model.now filter.now.numbers routes.now }
    requires within { IsTurnover routes.now.lists filter.now.balance }
    ensures { (parts : List ListAfter) → IsMadeOn routes.now parts
        → IsBalance routes.now.lists (changed routes.now.lists parts) filter.now.balance
        → result ≡ keeps_groups filter.now.model.now (changed routes.now.lists parts) }
{
    pieces_allow(filter, routes, filter.balance.come())
        && pieces_allow(filter, routes, filter.balance.gone())
}

impl<'m> GroupFilter<'m> {
    /// A filter in sync with the lists of routes, of which the rule holds. There is no `over` beside it: it looks up
    /// the groups of nodes by itself, also for `vr_judge`. The only refusal is want of memory.
    pub fn open(
        alloc: Global,
        model: &'m Model,
        routes: &Routes,
    ) -> Result<GroupFilter<'m>, NoMemory>
        requires well_formed { IsWellFormed model.now }
        requires visits { routes.now.visits ≡ visits model.now }
        requires many { length routes.now.lists ≡ length model.now.vehicles }
        requires rule { IsTrue (keeps_groups model.now routes.now.lists) }
        ensures holds { IfOk result (λ filter. ⟦<GroupFilter<'static> as PathFilter>⟧.holds filter
            ≡ keeps_groups model.now) }
        ensures stands { IfOk result (λ filter.
            ⟦<GroupFilter<'static> as PathFilter>⟧.stands_at filter routes.now) }
        ensures weight { IfOk result (λ filter. (before later : List (List ℕ))
            → ⟦<GroupFilter<'static> as PathFilter>⟧.weight filter before later ≡ 0) }
    {
        // neither does anything: contracts learn that no visit is there twice, and that lists have visits alone
        routes.know_once();
        routes.know_entries();
        let numbers = group_numbers(alloc, model)?;
        Ok(GroupFilter {
            model,
            numbers,
            balance: Balance::new(),
            is_prepared: false,
        })
    }
}

impl<'m> PathFilter for GroupFilter<'m> {
    ghost holds = { λ f lists. keeps_groups f.model.now lists };

    ghost stands_at = { λ f tours. KnowsGroups f.model.now f.numbers tours };

    ghost ready = { λ f tours parts. IsGroupsReady f.model.now f.is_prepared tours.lists parts };

    ghost weight = { λ f before later. 0 };

    fn passes<L: Ledger>(
        &mut self,
        routes: &Routes,
        change: &Change,
        _steps: &mut Steps<L>,
    ) -> Result<bool, NoMemory>
        requires stands { KnowsGroups self.old.model.now self.old.numbers routes.now }
        requires made { IsMadeOn routes.now change.now }
        ensures answer { IfOk result (λ passed. passed
            ≡ keeps_groups self.old.model.now (changed routes.now.lists change.now)) }
        ensures stands { KnowsGroups self.new.model.now self.new.numbers routes.now }
        ensures rule { IsSameRule (keeps_groups self.old.model.now) (keeps_groups self.new.model.now) }
        ensures same_weight { IsSameWeight (λ before later. 0) (λ before later. 0) }
        ensures count { _steps.new ≤ _steps.old + 0 }
        ensures refused { IfOk result (λ passed. passed ≡ false → NothingReady (λ tours parts.
            IsGroupsReady self.new.model.now self.new.is_prepared tours.lists parts)) }
        ensures unready { OnErr result (NothingReady (λ tours parts.
            IsGroupsReady self.new.model.now self.new.is_prepared tours.lists parts)) }
        ensures memory { IsOk result }
    {
        self.is_prepared = false;
        self.balance.write(routes, change);
        Ok(all_allow(self, routes))
    }

    fn prepare(&mut self, _routes: &Routes, _change: &Change) -> Result<(), NoMemory>
        requires stands { KnowsGroups self.old.model.now self.old.numbers _routes.now }
        requires made { IsMadeOn _routes.now _change.now }
        requires passes { IsTrue (keeps_groups self.old.model.now (changed _routes.now.lists _change.now)) }
        ensures ready { OnOk result
            (IsGroupsReady self.new.model.now self.new.is_prepared _routes.now.lists _change.now) }
        ensures stands { KnowsGroups self.new.model.now self.new.numbers _routes.now }
        ensures rule { IsSameRule (keeps_groups self.old.model.now) (keeps_groups self.new.model.now) }
        ensures same_weight { IsSameWeight (λ before later. 0) (λ before later. 0) }
        ensures unready { OnErr result (NothingReady (λ tours parts.
            IsGroupsReady self.new.model.now self.new.is_prepared tours.lists parts)) }
        ensures memory { IsOk result }
    {
        self.is_prepared = true;
        Ok(())
    }

    fn commit(&mut self, _routes: &Routes, _change: &Change) {
        self.is_prepared = false;
    }

    ghost keeps_rule = { λ f tours stands. stands.rule };
}
