//! Lists with the place of each node beside them.

ghost use Rattle.std.specs.Prelude.{◌≡◌, ℕ, ◌<◌, ◌≤◌, false, [], ◌∷◌, ◌++◌, length, slice_index, replicate};
ghost use Rattle.std.specs.Prelude.{IsTrue, MatchOption, IfOk};
ghost use Rattle.vr_model.specs.routes.Routes.{route, is_active};
ghost use Rattle.vr_model.specs.moves.Moves.{with_route};
ghost use Rattle.vr_routes.specs.Seats.{IsSeat, IsOnce, IsSameOrEmpty, MayHave, MayHaveAll, MayHaveTwo};

use crate::node_row::Row;
use std::alloc::Global;
use std::marker::Model;
use vr_model::{NoMemory, Seq};

/// A vehicle and a place: where a node is.
#[derive(Clone, Copy, Debug, PartialEq, Eq)]
pub struct Seat {
    /// The vehicle whose list it is in.
    pub vehicle: u32,
    /// Its place there, from 0 on.
    pub place: u32,
}

/// A list of nodes for each vehicle, with no node twice, and the seat of each node.
#[derive(Drop)]
pub struct Seating {
    rows: Vec<Row>,
    seats: Vec<Option<Seat>>,
}

impl Model for Seating {
    ghost use Rattle.std.specs.Prelude.{length};
    ghost use Rattle.vr_routes.specs.Seats.{Seated, IsSeated};

    ghost Value = { Seated };

    ghost view = { λ s. record { lists = s.rows.items; nodes = length s.seats.items } };

    ghost invariant = { λ s. IsSeated s.rows.items s.seats.items };
}

impl Seating {
    /// Empty lists for `vehicles` vehicles over the numbers below `nodes`.
    pub fn empty(alloc: Global, vehicles: usize, nodes: usize) -> Result<Seating, NoMemory>
        requires few_vehicles { vehicles ≤ 100 }
        requires few_nodes { nodes ≤ 1000 }
        ensures lists { IfOk result (λ s. s.lists ≡ replicate vehicles []) }
        ensures nodes { IfOk result (λ s. s.nodes ≡ nodes) }
    {
        let mut rows = Vec::new(alloc);
        for _v in 0..vehicles {
            rows.push(Row::new())?;
        }
        let mut seats = Vec::new(alloc);
        for _node in 0..nodes {
            seats.push(None)?;
        }
        Ok(Seating { rows, seats })
    }

    /// The same lists.
    pub fn copy(&self, alloc: Global) -> Result<Seating, NoMemory>
        ensures { IfOk result (λ s. s ≡ self.now) }
    {
        let rows = copy_rows(alloc, &self.rows)?;
        let seats = copy_seats(alloc, &self.seats)?;
        Ok(Seating { rows, seats })
    }

    /// The seat of a node, `None` if it is in no list.
    #[inline]
    pub fn seat(&self, node: u32) -> Option<Seat>
        requires node { node < self.now.nodes }
        ensures { MatchOption result (is_active self.now.lists node ≡ false)
            (λ seat. IsSeat self.now.lists node seat.vehicle seat.place) }
    {
        self.seats[node as usize]
    }

    /// Whether a node is in some list.
    #[inline]
    pub fn is_active(&self, node: u32) -> bool
        requires node { node < self.now.nodes }
        ensures { result ≡ is_active self.now.lists node }
    {
        self.seat(node).is_some()
    }

    /// How many lists there are.
    #[inline]
    pub fn vehicles(&self) -> usize
        ensures { result ≡ length self.now.lists }
    {
        self.rows.len()
    }

    /// How many numbers may be in the lists: those below this one.
    #[inline]
    pub fn nodes(&self) -> usize
        ensures { result ≡ self.now.nodes }
    {
        self.seats.len()
    }

    /// How many nodes the list of a vehicle has.
    #[inline]
    pub fn len(&self, v: u32) -> usize
        requires vehicle { v < length self.now.lists }
        ensures value { result ≡ length (route self.now.lists v) }
        ensures fits { result ≤ 1000 }
    {
        self.rows[v as usize].len()
    }

    /// The node at a place.
    #[inline]
    pub fn node_at(&self, v: u32, place: u32) -> u32
        requires vehicle { v < length self.now.lists }
        requires place { place < length (route self.now.lists v) }
        ensures { result ≡ slice_index (route self.now.lists v) place }
    {
        self.rows[v as usize].get(place as usize)
    }

    /// Puts a node that is in no list at the end of a list.
    pub fn put(&mut self, v: u32, node: u32)
        requires vehicle { v < length self.old.lists }
        requires node { node < self.old.nodes }
        requires inactive { is_active self.old.lists node ≡ false }
        ensures lists { self.new.lists ≡ with_route self.old.lists v (route self.old.lists v ++ node ∷ []) }
        ensures nodes { self.new.nodes ≡ self.old.nodes }
    {
        let row = &mut self.rows[v as usize];
        let place = row.len() as u32;
        row.push(node);
        self.seats[node as usize] = Some(Seat { vehicle: v, place });
    }

    /// Takes the last node of a list out, `None` if the list is empty.
    pub fn take_last(&mut self, v: u32) -> Option<u32>
        requires vehicle { v < length self.old.lists }
        ensures taken { MatchOption result
            ((route self.old.lists v ≡ []) × (self.new.lists ≡ self.old.lists))
            (λ node. (rest : _) × (route self.old.lists v ≡ rest ++ node ∷ [])
            × (self.new.lists ≡ with_route self.old.lists v rest)) }
        ensures nodes { self.new.nodes ≡ self.old.nodes }
    {
        let node = self.rows[v as usize].pop()?;
        self.seats[node as usize] = None;
        Some(node)
    }

    /// Takes all nodes of a list out.
    pub fn clear(&mut self, v: u32)
        requires vehicle { v < length self.old.lists }
        ensures lists { self.new.lists ≡ with_route self.old.lists v [] }
        ensures nodes { self.new.nodes ≡ self.old.nodes }
    {
        while let Some(_node) = self.take_last(v) {}
    }

    /// The list of a vehicle.
    #[inline]
    pub fn list(&self, v: u32) -> &[u32]
        requires vehicle { v < length self.now.lists }
        ensures value { result.now ≡ route self.now.lists v }
        ensures few { length result.now ≤ 1000 }
    {
        self.rows[v as usize].as_slice()
    }

    /// Gives a vehicle another list, with which no node comes twice.
    pub fn set_list(&mut self, v: u32, nodes: &[u32])
        requires { MayHave self.old v nodes.now }
        ensures lists { self.new.lists ≡ with_route self.old.lists v nodes.now }
        ensures nodes { self.new.nodes ≡ self.old.nodes }
    {
        self.clear(v);
        for &node in nodes {
            self.put(v, node);
        }
    }

    /// Gives two vehicles other lists, with which no node comes twice.
    pub fn set_two(&mut self, v: u32, nodes: &[u32], w: u32, others: &[u32])
        requires { MayHaveTwo self.old v nodes.now w others.now }
        ensures lists { self.new.lists ≡ with_route (with_route self.old.lists v nodes.now) w others.now }
        ensures nodes { self.new.nodes ≡ self.old.nodes }
    {
        // its nodes may go to the list of `v`, which `set_list` empties itself
        self.clear(w);
        self.set_list(v, nodes);
        self.set_list(w, others);
    }

    /// Gives each vehicle the list that it has in `other`.
    pub fn assign(&mut self, other: &Seating)
        requires { MayHaveAll self.old other.now.lists }
        ensures lists { self.new.lists ≡ other.now.lists }
        ensures nodes { self.new.nodes ≡ self.old.nodes }
    {
        other.know_few();
        self.clear_all();
        for v in 0..other.vehicles() {
            self.set_list(v as u32, other.list(v as u32));
        }
    }

    /// Gives each vehicle its list of `lists`, in which no node comes twice. A list that is the same is left alone. The
    /// others are all emptied before one is written, since a node may go from one to another.
    pub fn set_lists(&mut self, lists: &[Seq<u32>])
        requires { MayHaveAll self.old lists.now }
        ensures lists { self.new.lists ≡ lists.now }
        ensures nodes { self.new.nodes ≡ self.old.nodes }
    {
        self.know_few();
        self.clear_others(lists);
        for v in 0..lists.len() {
            self.fill(v as u32, lists[v].as_slice());
        }
    }

    // Takes all nodes out of each list that is another one in `lists`.
    fn clear_others(&mut self, lists: &[Seq<u32>])
        requires many { length self.old.lists ≡ length lists.now }
        ensures each { (v : ℕ) → v < length lists.now → IsSameOrEmpty (route lists.now v) (route self.new.lists v) }
        ensures many { length self.new.lists ≡ length self.old.lists }
        ensures nodes { self.new.nodes ≡ self.old.nodes }
    {
        self.know_few();
        for v in 0..lists.len() {
            self.clear_other(v as u32, lists[v].as_slice());
        }
    }

    // Takes all nodes out of a list that is not `nodes`.
    fn clear_other(&mut self, v: u32, nodes: &[u32])
        requires vehicle { v < length self.old.lists }
        ensures left { (left : _) × IsSameOrEmpty nodes.now left × (self.new.lists ≡ with_route self.old.lists v left) }
        ensures nodes { self.new.nodes ≡ self.old.nodes }
    {
        if !is_same(self.list(v), nodes) {
            self.clear(v);
        }
    }

    // Gives a vehicle a list with which no node comes twice, if it has not got it: then its list is empty.
    fn fill(&mut self, v: u32, nodes: &[u32])
        requires may { MayHave self.old v nodes.now }
        requires there { IsSameOrEmpty nodes.now (route self.old.lists v) }
        ensures lists { self.new.lists ≡ with_route self.old.lists v nodes.now }
        ensures nodes { self.new.nodes ≡ self.old.nodes }
    {
        if self.len(v) == 0 {
            self.set_list(v, nodes);
        }
    }

    // Takes all nodes out.
    fn clear_all(&mut self)
        ensures lists { (v : ℕ) → route self.new.lists v ≡ [] }
        ensures many { length self.new.lists ≡ length self.old.lists }
        ensures nodes { self.new.nodes ≡ self.old.nodes }
    {
        self.know_few();
        for v in 0..self.vehicles() {
            self.clear(v as u32);
        }
    }

    /// There are few lists, and few nodes that may be in them. It does nothing.
    pub fn know_few(&self)
        ensures vehicles { length self.now.lists ≤ 100 }
        ensures nodes { self.now.nodes ≤ 1000 }
    {
        // To read a field is to know what holds of all seatings.
        let _rows = &self.rows;
    }

    /// No node is at two places. It does nothing.
    pub fn know_once(&self)
        ensures { IsOnce self.now.lists }
    {
        // To read a field is to know what holds of all seatings.
        let _rows = &self.rows;
    }
}

// Whether two lists have the same nodes in the same order.
fn is_same(one: &[u32], other: &[u32]) -> bool
    ensures { IsTrue result → one.now ≡ other.now }
{
    one == other
}

// The same rows.
fn copy_rows(alloc: Global, rows: &[Row]) -> Result<Vec<Row>, NoMemory>
    ensures { IfOk result (λ copied. copied.items ≡ rows.now) }
{
    let mut copied = Vec::new(alloc);
    for row in rows {
        copied.push(row.copy())?;
    }
    Ok(copied)
}

// The same seats.
fn copy_seats(alloc: Global, seats: &[Option<Seat>]) -> Result<Vec<Option<Seat>>, NoMemory>
    ensures { IfOk result (λ copied. copied.items ≡ seats.now) }
{
    let mut copied = Vec::new(alloc);
    for &seat in seats {
        copied.push(seat)?;
    }
    Ok(copied)
}
