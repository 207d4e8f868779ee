//! The stops beside the gaps of a list, and what it adds to put a node into one.

ghost use Rattle.std.specs.Prelude.{◌≡◌, ◌<◌, ◌≤◌, ℕ, All, IsTrue, length};
ghost use Rattle.vr_arccosts.specs.Runs.{at_place, before_place, gap_added};

use vr_model::Closed;

/// A vehicle of a model.
#[derive(Clone, Copy)]
pub struct Driver<'m> {
    pub closed: Closed<'m>,
    pub vehicle: u32,
    pub ghost known: { vehicle < length closed.model.now.vehicles },
}

impl<'m> Driver<'m> {
    // The node of the stop before a place of a list, its start before the first.
    #[inline(always)]
    fn before(self, list: &[u32], place: usize) -> u32
        requires place { place ≤ length list.now }
        requires nodes { All (λ node. node < self.closed.model.now.nodes) list.now }
        ensures value { result ≡ before_place self.entry.closed.model.now self.entry.vehicle list.now place }
        ensures known { result < self.entry.closed.model.now.nodes }
    {
        if place == 0 {
            return self.closed.model.vehicles.get(self.vehicle as usize).start;
        }
        list[place - 1]
    }

    // The node of the stop at a place of a list, its end after the last.
    #[inline(always)]
    fn at(self, list: &[u32], place: usize) -> u32
        requires place { place ≤ length list.now }
        requires nodes { All (λ node. node < self.closed.model.now.nodes) list.now }
        ensures value { result ≡ at_place self.entry.closed.model.now self.entry.vehicle list.now place }
        ensures known { result < self.entry.closed.model.now.nodes }
    {
        if place == list.len() {
            return self.closed.model.vehicles.get(self.vehicle as usize).end;
        }
        list[place]
    }

    /// What it adds to the arc costs to put a node into the gap at a place of a list.
    #[inline(always)]
    pub fn gap(self, list: &[u32], place: usize, node: u32) -> i64
        requires some { 0 < length list.now }
        requires place { place ≤ length list.now }
        requires nodes { All (λ node. node < self.closed.model.now.nodes) list.now }
        requires node { node < self.closed.model.now.nodes }
        ensures { result
            ≡ gap_added self.entry.closed.model.now self.entry.vehicle list.now node node place }
    {
        let model = self.closed.model;
        let before = self.before(list, place);
        let at = self.at(list, place);
        let to = model.arc_cost(self.vehicle, before, node);
        let on = model.arc_cost(self.vehicle, node, at);
        let old = model.arc_cost(self.vehicle, before, at);
        to + on - old
    }

    /// Whether the gaps at a place of a list and at one of another list are between the same stops. Then each node adds
    /// the same there. If there is no such gap of the first list, or either has no nodes, they are not.
    #[inline]
    pub fn is_same_gap(self, old: &[u32], place: usize, new: &[u32], other: usize) -> bool
        requires nodes { All (λ node. node < self.closed.model.now.nodes) old.now }
        requires new_nodes { All (λ node. node < self.closed.model.now.nodes) new.now }
        requires other { other ≤ length new.now }
        ensures place { IsTrue result → place ≤ length old.now }
        ensures some { IsTrue result → 0 < length old.now }
        ensures same { IsTrue result → (node : ℕ)
            → gap_added self.entry.closed.model.now self.entry.vehicle old.now node node place
            ≡ gap_added self.entry.closed.model.now self.entry.vehicle new.now node node other }
    {
        if old.is_empty() || new.is_empty() || place > old.len() {
            return false;
        }
        let begins_so = self.before(old, place) == self.before(new, other);
        let ends_so = self.at(old, place) == self.at(new, other);
        begins_so && ends_so
    }
}
