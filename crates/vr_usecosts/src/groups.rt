//! The penalties of groups.

ghost use Rattle.std.specs.Prelude.{◌≡◌, ◌≢◌, ◌<◌, ◌≤◌, ◌-ℤ◌, ◌*ℤ◌, ◌≤ℤ◌, ℕ, ℤ, not, pos};
ghost use Rattle.std.specs.Prelude.{All, IsTrue, IfOk, IfSome, List, length};
ghost use Rattle.vr_model.specs.tables.Numbers.{is_same_number, number_at, total_by};
ghost use Rattle.vr_model.specs.tables.Tables.{visits};
ghost use Rattle.vr_model.specs.tables.Limits.{greatest_cost};
ghost use Rattle.vr_model.specs.tables.WellFormed.{IsIn, IsWellFormed, WherePresent};
ghost use Rattle.vr_model.specs.routes.Routes.{holds};
ghost use Rattle.vr_model.specs.routes.Costs.{penalty_for, penalty_part};
ghost use Rattle.vr_model.specs.routes.Rules.{active_in as active_in_of, fits_group, is_valid};
ghost use Rattle.vr_model.specs.declared.neighbours.Move.TheVariants.{MakeActive, PairActive, SwapActive};
ghost use Rattle.vr_routes.specs.Changes.{IsMadeOn};
ghost use Rattle.vr_routes.specs.Pieces.{changed, nodes_of, IsWithin};
ghost use Rattle.vr_routes.specs.Runs.{with_last};
ghost use Rattle.vr_parts.specs.Bounds.{IsAddedByChange};
ghost use Rattle.vr_balance.specs.Sums.{IsUpTo};
ghost use Rattle.vr_usecosts.specs.Groups as penalties_of;
ghost use Rattle.vr_usecosts.specs.Groups.{pay, saved_by, saved_in as saved_in_of, AreSaved, AreFew};
ghost use Rattle.vr_usecosts.specs.Groups.{IsForNodes, IsForPieces, IsMost, Saves, SavesAtMost, StandsGroups};

use std::alloc::Global;
use std::marker::Model;
use vr_balance::{Balance, active_in};
use vr_model::{Closed, Group, Model as RoutingModel, Move, NoMemory, Seq};
use vr_parts::InfallibleCost;
use vr_routes::{Change, Piece, Routes};

/// The penalties of groups that have fewer active nodes than they may have (`AddDisjunction` in OR-Tools). For a change
/// it looks at the pieces that come and those that go alone. The same piece on both sides cancels out, so it does not
/// look at nodes that are only elsewhere in such a piece.
#[derive(Drop)]
pub struct GroupCost<'m> {
    model: &'m RoutingModel,
    // for each node what it saves if it is active: the penalty of its group, 0 if it is in none or that has none
    saved: Seq<i64>,
    // none of these is more: what a visit saves at most of which it is not known which one it is (`SwapActive`)
    most: i64,
    // whether some group has a penalty that is not 0
    pays: bool,
    // the penalties at the committed lists: if they are 0, no change saves anything
    total: i64,
    // scratch: the pieces that a change brings in and takes out
    balance: Balance,
}

impl<'m> Model for GroupCost<'m> {
    ghost use Rattle.vr_usecosts.specs.Groups.{KeptGroups};

    ghost Value = { KeptGroups };

    ghost view = { λ part. record {
      model = part.model.now;
      saved = part.saved;
      most = part.most;
      pays = part.pays;
      total = part.total;
    } };
}

// What an active node of a group saves: 0 if the group has no penalty, as it is never short of nodes then.
fn penalty(group: &Group) -> i64
    requires present { WherePresent (IsIn (pos 0) greatest_cost) group.now.penalty }
    ensures value { result ≡ pos (pay group.now.penalty) }
    ensures range { IsUpTo 1 result }
{
    match group.penalty {
        Some(penalty) => penalty,
        None => 0,
    }
}

// Whether the group has the node.
fn has_node(group: &Group, node: u32) -> bool
    ensures { result ≡ holds group.now.nodes node }
{
    group.nodes.as_slice().contains(&node)
}

// What a node saves if it is active: the penalty of the first group that has it. That is the only one, since no node is
// in two groups. It is 0 if none has it.
fn saving(closed: Closed<'_>, node: u32) -> i64
    ensures value { result ≡ pos (saved_by closed.entry.model.now.groups node) }
    ensures range { IsUpTo 1 result }
{
    for g in 0..closed.model.groups.len() {
        let group = closed.model.groups.get(g);
        if has_node(group, node) {
            return penalty(group);
        }
    }
    0
}

// What each node saves if it is active.
fn savings(alloc: Global, closed: Closed<'_>) -> Result<Seq<i64>, NoMemory>
    ensures { IfOk result (AreSaved closed.entry.model.now) }
{
    let mut saved = Seq::new(alloc);
    for node in 0..closed.model.nodes {
        saved.push(saving(closed, node))?;
    }
    Ok(saved)
}

// Whether a group has a penalty that is not 0.
fn has_penalty(group: &Group) -> bool
    ensures { result ≡ penalties_of.has_penalty group.now }
{
    match group.penalty {
        Some(penalty) => penalty > 0,
        None => false,
    }
}

// Whether some group has a penalty that is not 0.
fn is_some_paid(model: &RoutingModel) -> bool
    ensures { result ≡ penalties_of.is_some_paid model.now }
{
    model
        .groups
        .as_slice()
        .iter()
        .any(|group| has_penalty(group))
}

// What a node saves; 0 of a number that is no node, since what a run saves may be asked of moves that are none.
#[inline]
fn saved_at(saved: &Seq<i64>, node: u32) -> i64
    requires few { AreFew saved.now }
    ensures value { result ≡ number_at saved.now node }
    ensures range { IsUpTo 1 result }
{
    if (node as usize) < saved.len() {
        return *saved.get(node as usize);
    }
    0
}

// What a node saves at most.
fn most_saved(saved: &Seq<i64>) -> i64
    requires few { AreFew saved.now }
    ensures { IsMost saved.now result }
{
    let mut most = 0;
    for k in 0..saved.len() {
        let next = *saved.get(k);
        if next > most {
            most = next;
        }
    }
    most
}

// What some nodes save.
fn saved_by_nodes(saved: &Seq<i64>, nodes: &[u32]) -> i64
    requires few { AreFew saved.now }
    requires few_nodes { length nodes.now ≤ 1000 }
    ensures value { result ≡ total_by (number_at saved.now) nodes.now }
    ensures range { IsForNodes result }
{
    let mut total = 0;
    for k in 0..nodes.len() {
        total += saved_at(saved, nodes[k]);
    }
    total
}

// What the nodes of a piece save.
fn saved_by_piece(saved: &Seq<i64>, routes: &Routes, piece: Piece) -> i64
    requires few { AreFew saved.now }
    requires within { IsWithin routes.now.lists piece }
    ensures value { result ≡ total_by (number_at saved.now) (nodes_of routes.now.lists piece) }
    ensures range { IsForNodes result }
{
    match piece {
        Piece::Node { node } => saved_by_nodes(saved, &[node]),
        Piece::Chain {
            vehicle,
            from,
            to,
            ..
        } => saved_by_nodes(saved, &routes.list(vehicle)[from as usize..to as usize]),
    }
}

// What the nodes of pieces save.
fn saved_in(saved: &Seq<i64>, routes: &Routes, pieces: &[Piece]) -> i64
    requires few { AreFew saved.now }
    requires within { All (IsWithin routes.now.lists) pieces.now }
    requires few_pieces { length pieces.now ≤ 18 }
    ensures value { result ≡ saved_in_of saved.now routes.now.lists pieces.now }
    ensures range { IsForPieces result }
{
    let mut total = 0;
    for k in 0..pieces.len() {
        total += saved_by_piece(saved, routes, pieces[k]);
    }
    total
}

// A penalty for each of this many nodes.
fn for_each(penalty: i64, nodes: u32) -> i64
    requires penalty { IsUpTo 1 penalty }
    requires few { nodes ≤ 1000 }
    ensures value { result ≡ (penalty *ℤ pos nodes) }
    ensures range { IsForNodes result }
{
    penalty * i64::from(nodes)
}

// What a group costs: its penalty for each node that it lacks.
fn penalty_of(routes: &Routes, group: &Group) -> i64
    requires present { WherePresent (IsIn (pos 0) greatest_cost) group.now.penalty }
    requires few { group.now.max ≤ 1000 }
    requires fits { IsTrue (fits_group routes.now.lists group.now) }
    ensures value { result ≡ penalty_for group.now.penalty group.now.max (active_in_of routes.now.lists group.now) }
    ensures range { IsForNodes result }
{
    let active = active_in(routes, group);
    match group.penalty {
        Some(penalty) => for_each(penalty, group.max - active as u32),
        None => 0,
    }
}

// What the groups cost.
fn penalties(closed: Closed<'_>, routes: &Routes) -> i64
    requires valid { IsTrue (is_valid closed.model.now routes.now.lists) }
    ensures { result ≡ penalty_part closed.entry.model.now routes.now.lists }
{
    let mut total = 0;
    for g in 0..closed.model.groups.len() {
        total += penalty_of(routes, closed.model.groups.get(g));
    }
    total
}

impl<'m> GroupCost<'m> {
    /// The penalties at the lists of routes. The only error is out of memory.
    pub fn open(
        alloc: Global,
        model: &'m RoutingModel,
        routes: &Routes,
    ) -> Result<GroupCost<'m>, NoMemory>
        requires well_formed { IsWellFormed model.now }
        requires of_model { routes.now.visits ≡ visits model.now }
        requires valid { IsTrue (is_valid model.now routes.now.lists) }
        ensures model { IfOk result (λ part. part.model ≡ model.now) }
        ensures stands { IfOk result (λ part. StandsGroups part routes.now) }
    {
        let closed = Closed { model };
        let saved = savings(alloc, closed)?;
        let most = most_saved(&saved);
        let pays = is_some_paid(model);
        let total = penalties(closed, routes);
        Ok(GroupCost {
            model,
            saved,
            most,
            pays,
            total,
            balance: Balance::new(),
        })
    }

    /// Whether the committed lists have no penalty to pay: no lists have less to pay then.
    #[inline(always)]
    pub fn pays_none(&self) -> bool
        ensures { result ≡ is_same_number self.now.total (pos 0) }
    {
        self.total == 0
    }

    /// What a change of the committed lists adds at least, if the lists after it are valid. If the committed ones have
    /// no penalty to pay, it is 0, without a look at the change. Else it is what the change adds.
    #[inline]
    pub fn least(&mut self, routes: &Routes, change: &Change) -> i64
        requires stands { StandsGroups self.old routes.now }
        requires made { IsMadeOn routes.now change.now }
        ensures least { IsTrue (is_valid self.old.model (changed routes.now.lists change.now))
            → result ≤ℤ (penalty_part self.old.model (changed routes.now.lists change.now)
            -ℤ penalty_part self.old.model routes.now.lists) }
        ensures none { self.old.total ≡ pos 0 → result ≡ pos 0 }
        ensures some { self.old.total ≢ pos 0
            → result ≡ penalty_part self.old.model (changed routes.now.lists change.now)
            -ℤ penalty_part self.old.model routes.now.lists }
        ensures range { IsAddedByChange result }
        ensures stays { self.new ≡ self.old }
    {
        if self.total == 0 {
            return 0;
        }
        self.added(routes, change)
    }

    /// What each move of a run saves of the penalties, if the lists after it are valid. It is what a visit or a pair
    /// saves that is put into a list. The moves of a run differ in their last number. `None` of moves of other kinds,
    /// and if there is no such pair. Called by `saved_at_most_by_run` alone.
    #[inline]
    pub fn saved_by_run(&self, mv: Move) -> Option<i64>
        requires well_formed { IsWellFormed self.now.model }
        requires saved { AreSaved self.now.model self.now.saved }
        ensures exact { IfSome result (λ saved. (lists : List (List ℕ)) → IsTrue (is_valid self.now.model lists)
            → (k : ℕ) → Saves self.now.model lists (with_last mv k) saved) }
        ensures range { IfSome result IsAddedByChange }
    {
        match mv {
            Move::MakeActive { u, .. } => Some(self.saved_by_visit(u)),
            Move::PairActive { p, .. } => self.saved_by_pair(p),
            _ => None,
        }
    }

    /// What each move of a run saves of the penalties at most, if the lists after it are valid. The moves of a run
    /// differ in their last number.
    /// - A visit or a pair is put into a list: it is what they save.
    /// - A visit takes the place of a node: it is the most that a visit saves, less what the node does. The last number
    ///   is the visit.
    ///
    /// `None` of moves of other kinds, and if there is no such pair or place.
    #[inline]
    pub fn saved_at_most_by_run(&self, routes: &Routes, mv: Move) -> Option<i64>
        requires stands { StandsGroups self.now routes.now }
        ensures at_most { IfSome result (λ saved. (k : ℕ)
            → SavesAtMost self.now.model routes.now.lists (with_last mv k) saved) }
        ensures range { IfSome result IsAddedByChange }
    {
        match mv {
            Move::SwapActive { v, a, .. } => self.saved_by_newcomer(routes, v, a),
            _ => self.saved_by_run(mv),
        }
    }

    // What a visit saves at most that takes the place of a node; `None` if there is no such place.
    #[inline]
    fn saved_by_newcomer(&self, routes: &Routes, v: u32, a: u32) -> Option<i64>
        requires stands { StandsGroups self.now routes.now }
        ensures at_most { IfSome result (λ saved. (u : ℕ)
            → SavesAtMost self.now.model routes.now.lists (SwapActive v a u) saved) }
        ensures range { IfSome result IsAddedByChange }
    {
        if v >= routes.vehicles() || a >= routes.len(v) {
            return None;
        }
        let node = routes.node_at(v, a);
        let paid = saved_at(&self.saved, node);
        Some(self.most - paid)
    }

    // What a visit saves that is put into a list.
    #[inline]
    fn saved_by_visit(&self, u: u32) -> i64
        requires well_formed { IsWellFormed self.now.model }
        requires saved { AreSaved self.now.model self.now.saved }
        ensures exact { (lists : List (List ℕ)) → IsTrue (is_valid self.now.model lists)
            → (w t : ℕ) → Saves self.now.model lists (MakeActive u w t) result }
        ensures range { IsAddedByChange result }
    {
        saved_at(&self.saved, u)
    }

    // What a pair saves that is put into a list; `None` if there is no such pair.
    #[inline]
    fn saved_by_pair(&self, p: u32) -> Option<i64>
        requires well_formed { IsWellFormed self.now.model }
        requires saved { AreSaved self.now.model self.now.saved }
        ensures exact { IfSome result (λ saved. (lists : List (List ℕ)) → IsTrue (is_valid self.now.model lists)
            → (w s t : ℕ) → Saves self.now.model lists (PairActive p w s t) saved) }
        ensures range { IfSome result IsAddedByChange }
    {
        if p as usize >= self.model.pairs.len() {
            return None;
        }
        let pair = *self.model.pairs.get(p as usize);
        let pickup = saved_at(&self.saved, pair.pickup);
        let delivery = saved_at(&self.saved, pair.delivery);
        Some(pickup + delivery)
    }
}

impl<'m> InfallibleCost for GroupCost<'m> {
    ghost model = { λ cost. cost.model };

    ghost value = { penalty_part };

    ghost stands_at = { StandsGroups };

    fn added(&mut self, routes: &Routes, change: &Change) -> i64 {
        if !self.pays {
            return 0;
        }
        self.balance.write(routes, change);
        // what goes saves its penalties no more
        let gone = saved_in(&self.saved, routes, self.balance.gone());
        let come = saved_in(&self.saved, routes, self.balance.come());
        gone - come
    }

    fn commit_lists(&mut self, routes: &Routes, change: &Change) {
        let added = self.added(routes, change);
        self.total += added;
    }
}
