//! The list of a vehicle after a change, which is asked by places and not written out.

ghost use Rattle.std.specs.Prelude.{◌≡◌, ◌==◌, ◌&&◌, ◌<◌, ◌≤◌, All, length, nat_lt, slice_index};
ghost use Rattle.std.specs.List.{list_all};
ghost use Rattle.vr_model.specs.routes.Routes.{route};
ghost use Rattle.vr_model.specs.routes.Rules.{place_of, serves_pair};
ghost use Rattle.vr_pathfilters.specs.Replaced.{comes_in_turn, replaced_list};
ghost use Rattle.std.proofs.Props.{props};
ghost use Rattle.vr_pathfilters.specs.Pairs.{AreMarked, IsNewList, serves_node, serves_unmarked};

use crate::policies::NewCounts;
use std::marker::Model;
use vr_lists::NodeTables;
use vr_model::{Pair, Policy};
use vr_routes::Routes;

/// What a change makes of the list of a vehicle: other nodes between the ends that it keeps. With `front` 1, `behind` 3
/// and `middle` 8 9, the list 1 2 3 4 becomes 1 8 9 4.
#[derive(Clone, Copy)]
pub(crate) struct Between<'r, 'n> {
    pub(crate) routes: &'r Routes,
    pub(crate) v: u32,
    // how many nodes are kept at the front
    pub(crate) front: u32,
    // the place from which on nodes are kept
    pub(crate) behind: u32,
    // the nodes between
    pub(crate) middle: &'n [u32],
    // the place of each of them there; the marks of other nodes do not count
    pub(crate) marks: &'n [u32],
    /// The nodes are marked, and none is in the new list twice.
    pub(crate) ghost fits: { IsNewList routes.now.lists v front behind middle.now marks.now } by { Prim.hlevel props },
}

/// The list of a vehicle after a change: what it keeps at both ends, with other nodes between. Contracts see the list.
/// The place of a node in it is looked up, however long the list is.
#[derive(Drop)]
pub(crate) struct NewList<'r, 'n> {
    pub(crate) ends: Between<'r, 'n>,
}

impl<'r, 'n> Model for NewList<'r, 'n> {
    ghost use Rattle.std.specs.Prelude.{ℕ, List};
    ghost use Rattle.vr_pathfilters.specs.Between.{changed_list};
    ghost use Rattle.vr_pathfilters.specs.Pairs.{IsNewList};

    ghost Value = { List ℕ };

    ghost view = { λ s. changed_list s.ends };

    ghost invariant = { λ s. IsNewList s.ends.routes.now.lists s.ends.v s.ends.front s.ends.behind s.ends.middle.now
        s.ends.marks.now };
}

/// Marks each node of a list with a place of it.
pub(crate) fn mark(list: &[u32], marks: &mut [u32; 1000])
    requires nodes { All (λ node. node < 1000) list.now }
    requires few { length list.now ≤ 1000 }
    ensures { AreMarked list.now marks.new }
{
    for k in 0..list.len() {
        marks[list[k] as usize] = k as u32;
    }
}

// The mark of a node. It may be one of an earlier change: who asks looks whether the node is at that place (`is_at`).
#[inline]
fn mark_of(marks: &[u32], node: u32) -> u32
    ensures { result ≡ slice_index marks.now node }
{
    if (node as usize) < marks.len() {
        return marks[node as usize];
    }
    0
}

// Whether a node is at a place of a list.
#[inline]
fn is_at(list: &[u32], place: u32, node: u32) -> bool
    ensures { result ≡ (nat_lt place (length list.now) && (slice_index list.now place == node)) }
{
    (place as usize) < list.len() && list[place as usize] == node
}

impl<'r, 'n> NewList<'r, 'n> {
    // How many nodes the list has.
    #[inline]
    fn len(&self) -> u32
        ensures { result ≡ length self.now }
    {
        self.ends.front
            + self.ends.middle.len() as u32
            + (self.ends.routes.len(self.ends.v) - self.ends.behind)
    }

    // The place of a node; the length of the list if it is absent.
    #[inline]
    fn place(&self, node: u32) -> u32
        ensures { result ≡ place_of self.now node }
    {
        let place = mark_of(self.ends.marks, node);
        if is_at(self.ends.middle, place, node) {
            return self.ends.front + place;
        }
        match self.ends.routes.seat(node) {
            None => self.len(),
            Some(seat) => {
                if seat.vehicle != self.ends.v {
                    return self.len();
                }
                if seat.place < self.ends.front {
                    return seat.place;
                }
                if seat.place < self.ends.behind {
                    return self.len();
                }
                self.ends.front + self.ends.middle.len() as u32 + (seat.place - self.ends.behind)
            }
        }
    }

    // Whether the list has a pair with both nodes, the pickup first, or with neither.
    #[inline]
    fn serves(&self, pair: Pair) -> bool
        ensures { result ≡ serves_pair self.now pair }
    {
        // the read tells contracts that no node is there twice; the place of a node that is absent is the length
        let _ = &self.ends;
        let pickup = self.place(pair.pickup);
        let delivery = self.place(pair.delivery);
        if pickup < delivery {
            delivery < self.len()
        } else {
            delivery == self.len()
        }
    }

    // Whether the list serves the pair that a node is in.
    #[inline]
    fn serves_node(&self, node_tables: &NodeTables<'_>, node: u32) -> bool
        ensures { result ≡ serves_node node_tables.now self.now node }
    {
        match node_tables.pair_of(node) {
            Some(pair) => self.serves(pair),
            None => true,
        }
    }

    /// Whether the list serves the pairs that some nodes are in.
    pub(crate) fn serves_each(&self, node_tables: &NodeTables<'_>, nodes: &[u32]) -> bool
        ensures { result ≡ list_all (serves_node node_tables.now self.now) nodes.now }
    {
        nodes
            .iter()
            .all(|&node| self.serves_node(node_tables, node))
    }

    /// Whether the list serves the pairs that some nodes are in. Nodes that `marks` tells to be in `marked` are left
    /// out: `serves_each` is asked about those. Both are handed in, since contracts see of `self` the list alone.
    pub(crate) fn serves_unmarked(
        &self,
        node_tables: &NodeTables<'_>,
        nodes: &[u32],
        marked: &[u32],
        marks: &[u32],
    ) -> bool
        ensures { result ≡ list_all (serves_unmarked node_tables.now self.now marked.now marks.now) nodes.now }
    {
        nodes.iter().all(|&node| is_at(marked, mark_of(marks, node), node)
            || self.serves_node(node_tables, node))
    }

    // Whether the pair that a node is in comes in turn, as a policy asks (`policies`); so does a node in no pair.
    #[inline]
    fn comes_in_turn(&self, policy: Policy, counted: &NewCounts<'_, '_>, node: u32) -> bool
        requires { replaced_list counted.now ≡ self.now }
        ensures { result ≡ comes_in_turn counted.now.model policy self.now node }
    {
        match counted.pair_of(node) {
            None => true,
            Some(pair) => {
                counted.are_in_turn(policy, self.place(pair.pickup), self.place(pair.delivery))
            }
        }
    }

    /// Whether the pairs that some nodes are in come in turn. The list is counted in `counted`.
    pub(crate) fn come_in_turn(
        &self,
        policy: Policy,
        counted: &NewCounts<'_, '_>,
        nodes: &[u32],
    ) -> bool
        requires { replaced_list counted.now ≡ self.now }
        ensures { result ≡ list_all (comes_in_turn counted.now.model policy self.now) nodes.now }
    {
        nodes
            .iter()
            .all(|&node| self.comes_in_turn(policy, counted, node))
    }
}
