//! What is counted in a list with a stretch replaced by other nodes, and whether its pairs come in turn.

ghost use Rattle.std.specs.Prelude.{◌≡◌, ◌+◌, ◌<◌, ◌≤◌, ◌^◌, length, take};
ghost use Rattle.vr_model.specs.first.Items.{pair_of as pair_of_node};
ghost use Rattle.vr_reach.specs.Spliced.{AreSeams, spliced};
ghost use Rattle.vr_pathfilters.specs.Counted.{pair_counts, AreCounted, IsOfThreeLists};
ghost use Rattle.vr_pathfilters.specs.Turns.{are_in_turn as are_in_turn_in};
ghost use Rattle.vr_pathfilters.specs.Replaced.{replaced_list};

use super::counts::{Counts, counts_before};
use super::turns::Turns;
use std::marker::Model;
use vr_lists::NodeTables;
use vr_model::{Pair, Policy};

/// A list with a stretch replaced by other nodes, whose pickups and deliveries are counted. Contracts see the model,
/// the list before, the stretch and the nodes.
#[derive(Drop)]
pub struct NewCounts<'a, 'm> {
    // what is looked up once of the nodes of the model
    node_tables: &'a NodeTables<'m>,
    turns: &'a Turns,
    old: &'a [u32],
    // how many nodes are kept at the front
    front: u32,
    // the place from which on nodes are kept
    behind: u32,
    // the nodes between
    middle: &'a [u32],
}

impl<'a, 'm> Model for NewCounts<'a, 'm> {
    ghost use Rattle.vr_pathfilters.specs.Counted.{IsNewCounted};
    ghost use Rattle.vr_pathfilters.specs.Replaced.{Replaced};

    ghost Value = { Replaced };

    ghost view = { λ s. record {
      model = s.node_tables.now;
      old = s.old.now;
      front = s.front;
      behind = s.behind;
      middle = s.middle.now;
    } };

    ghost invariant = { λ s. IsNewCounted s.node_tables.now s.old.now s.front s.behind s.middle.now
        s.turns.now.listed s.turns.now.between };
}

impl<'a, 'm> NewCounts<'a, 'm> {
    /// A list that keeps its first `front` nodes and those from `behind` on, with others between. All of them are
    /// counted.
    #[inline]
    pub fn of(
        node_tables: &'a NodeTables<'m>,
        turns: &'a Turns,
        old: &'a [u32],
        front: u32,
        behind: u32,
        middle: &'a [u32],
    ) -> NewCounts<'a, 'm>
        requires seams { AreSeams (length old.now) front behind }
        requires few { length old.now ≤ 1000 }
        requires few_between { length middle.now ≤ 1000 }
        requires listed { AreCounted node_tables.now old.now turns.now.listed }
        requires between { AreCounted node_tables.now middle.now turns.now.between }
        ensures { result ≡ record {
          model = node_tables.now;
          old = old.now;
          front = front;
          behind = behind;
          middle = middle.now;
        } }
    {
        NewCounts {
            node_tables,
            turns,
            old,
            front,
            behind,
            middle,
        }
    }

    /// The pair that a node is in.
    #[inline]
    pub fn pair_of(&self, node: u32) -> Option<Pair>
        ensures { result ≡ pair_of_node self.now.model node }
    {
        self.node_tables.pair_of(node)
    }

    // What is counted before a place of the list before.
    #[inline]
    fn listed(&self, place: usize) -> Counts
        ensures value { result ≡ pair_counts self.now.model (take place self.now.old) }
        ensures pickups { result.pickups ≤ 1000 }
        ensures deliveries { result.deliveries ≤ 1000 }
    {
        counts_before(self.old, &self.turns.listed, place)
    }

    // What is counted before a place of the nodes between.
    #[inline]
    fn between(&self, place: usize) -> Counts
        ensures value { result ≡ pair_counts self.now.model (take place self.now.middle) }
        ensures pickups { result.pickups ≤ 1000 }
        ensures deliveries { result.deliveries ≤ 1000 }
    {
        counts_before(self.middle, &self.turns.between, place)
    }

    // What is counted before a place of the list. It looks at four nodes at most.
    #[inline]
    fn before(&self, place: usize) -> Counts
        requires place { place ≤ 2 ^ 32 }
        ensures value { result ≡ pair_counts self.now.model (take place (replaced_list self.now)) }
        ensures pickups { IsOfThreeLists result.pickups }
        ensures deliveries { IsOfThreeLists result.deliveries }
    {
        let front = self.front as usize;
        if place <= front {
            return self.listed(place);
        }
        let at_front = self.listed(front);
        let inside = self.between(place - front);
        if place - front <= self.middle.len() {
            return Counts {
                pickups: at_front.pickups + inside.pickups,
                deliveries: at_front.deliveries + inside.deliveries,
            };
        }
        let at_behind = self.listed(self.behind as usize);
        let past = self.listed(self.behind as usize + (place - front - self.middle.len()));
        Counts {
            pickups: at_front.pickups + inside.pickups + past.pickups - at_behind.pickups,
            deliveries: at_front.deliveries + inside.deliveries + past.deliveries
                - at_behind.deliveries,
        }
    }

    /// Whether the pickup and the delivery at two places of the list come in turn.
    #[inline]
    pub fn are_in_turn(&self, policy: Policy, pickup: u32, delivery: u32) -> bool
        ensures { result ≡ are_in_turn_in self.now.model policy (replaced_list self.now) pickup delivery }
    {
        match policy {
            Policy::Any => true,
            Policy::Lifo => {
                let a = self.before(pickup as usize + 1);
                let b = self.before(delivery as usize);
                a.pickups + b.deliveries == b.pickups + a.deliveries
            }
            Policy::Fifo => {
                let a = self.before(pickup as usize);
                let b = self.before(delivery as usize);
                a.pickups == b.deliveries
            }
        }
    }
}
