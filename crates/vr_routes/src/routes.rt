//! Routes: a list of visits for each vehicle.

ghost use Rattle.std.specs.Prelude.{◌≡◌, ℕ, ◌+◌, ◌<◌, ◌≤◌, ◌&&◌, not, nat_le, true, false, IsTrue, All};
ghost use Rattle.std.specs.Prelude.{[], ◌∷◌, ◌++◌, filter, find, length, slice_index, replicate};
ghost use Rattle.std.specs.Prelude.{MatchOption, IfOk, IfSome, IfNone};
ghost use Rattle.std.specs.List.Sorted.{IsStrictlyIncreasing};
ghost use Rattle.vr_model.specs.routes.Routes.{are_lists, route, holds, is_active};
ghost use Rattle.vr_model.specs.moves.Moves.{with_route};
ghost use Rattle.vr_model.specs.tables.Numbers.{below};
ghost use Rattle.vr_model.specs.tables.Tables.{is_visit, visits};
ghost use Rattle.vr_model.specs.tables.WellFormed.{IsWellFormed};
ghost use Rattle.vr_routes.specs.Seats.{IsSeat, IsOnce};
ghost use Rattle.vr_routes.specs.Pieces.{changed, joined, part_at, IsWithin};
ghost use Rattle.vr_routes.specs.Indices.{end_index, HasNoNext, HasNoPrevious, IsNext, IsStop};
ghost use Rattle.vr_routes.specs.Changes.{IsMadeOn};
ghost use Rattle.vr_routes.specs.Tours.{inactive_of, AreSeatedTours, HaveVisits};

use crate::changes::Change;
use crate::filling::fill;
use crate::node_row::Row;
use crate::pieces::Piece;
use crate::seats::{Seat, Seating};
use std::alloc::Global;
use std::marker::Model;
use vr_model::{Model as RoutingModel, NoMemory, Seq};

/// The routes of the vehicles: a list of visits for each, in which no visit comes twice (`RoutingModel` in OR-Tools).
/// Each look-up but `inactive_from` takes the same time whatever the lists are.
#[derive(Drop)]
pub struct Routes {
    // One list: the visits, ascending, so that the place of a visit in it is its index (`Indices`).
    visits: Seating,
    // The lists of the vehicles.
    seating: Seating,
    // The visits in no list, ascending.
    inactive: Row,
    // Room for the lists that a change makes, before they are put in the place of the old ones.
    first: Row,
    second: Row,
}

impl Model for Routes {
    ghost use Rattle.vr_model.specs.routes.Routes.{route};
    ghost use Rattle.vr_routes.specs.Tours.{Tours, AreToursKept};

    ghost Value = { Tours };

    ghost view = { λ r. record { visits = route r.visits.lists 0; lists = r.seating.lists } };

    ghost invariant = { λ r. AreToursKept r.visits r.seating r.inactive };
}

impl Routes {
    /// Routes with empty lists.
    pub fn empty(alloc: Global, model: &RoutingModel) -> Result<Routes, NoMemory>
        requires well_formed { IsWellFormed model.now }
        ensures visits { IfOk result (λ routes. routes.visits ≡ visits model.now) }
        ensures lists { IfOk result (λ routes. routes.lists ≡ replicate (length model.now.vehicles) []) }
    {
        let visits = visits_of(alloc, model)?;
        let seating = Seating::empty(alloc, model.vehicles.len(), model.nodes as usize)?;
        Ok(Routes::of(visits, seating))
    }

    /// Routes with these lists; constructions end in it. `None` unless there is one list for each vehicle, each entry
    /// is a visit, and none comes twice.
    pub fn from_lists(
        alloc: Global,
        model: &RoutingModel,
        lists: &[Seq<u32>],
    ) -> Result<Option<Routes>, NoMemory>
        requires well_formed { IsWellFormed model.now }
        ensures answer { let are = are_lists model.now lists.now in
            IfOk result (λ answer. MatchOption answer (are ≡ false) (λ routes. are ≡ true)) }
        ensures visits { IfOk result (λ answer. IfSome answer (λ routes. routes.visits ≡ visits model.now)) }
        ensures lists { IfOk result (λ answer. IfSome answer (λ routes. routes.lists ≡ lists.now)) }
    {
        let visits = visits_of(alloc, model)?;
        let mut seating = Seating::empty(alloc, model.vehicles.len(), model.nodes as usize)?;
        if !seat_lists(model, lists, &mut seating) {
            return Ok(None);
        }
        seating.know_once();
        Ok(Some(Routes::of(visits, seating)))
    }

    // Routes with these visits and these lists.
    fn of(visits: Seating, seating: Seating) -> Routes
        requires { AreSeatedTours visits seating }
        ensures { result ≡ record { visits = route visits.lists 0; lists = seating.lists } }
    {
        let mut inactive = Row::new();
        write_inactive(&seating, visits.list(0), &mut inactive);
        Routes {
            visits,
            seating,
            inactive,
            first: Row::new(),
            second: Row::new(),
        }
    }

    /// Makes a change of these lists in place.
    pub fn commit(&mut self, change: &Change)
        requires made { IsMadeOn self.old change.now }
        ensures visits { self.new.visits ≡ self.old.visits }
        ensures lists { self.new.lists ≡ changed self.old.lists change.now }
    {
        self.seating.know_once();
        change.rebuild(&mut self.seating, &mut self.first, &mut self.second);
        write_inactive(&self.seating, self.visits.list(0), &mut self.inactive);
    }

    /// Takes the lists of other routes of the same model over. Guided and tabu search keep their best routes so
    /// (`vr_descent::Incumbent`), and path neighbourhoods take the result of a cut that costs less.
    pub fn assign(&mut self, other: &Routes)
        requires visits { self.old.visits ≡ other.now.visits }
        requires many { length self.old.lists ≡ length other.now.lists }
        ensures { self.new ≡ other.now }
    {
        other.seating.know_once();
        self.seating.assign(&other.seating);
        write_inactive(&self.seating, self.visits.list(0), &mut self.inactive);
    }

    /// Takes other lists over in place, as many as these, of visits of which none comes twice. Path neighbourhoods
    /// write so what a ruin leaves (a cut), and insertion what it recreates. It takes no memory. A list that is the
    /// same is left alone.
    pub fn set_lists(&mut self, lists: &[Seq<u32>])
        requires many { length self.old.lists ≡ length lists.now }
        requires visits { (node : ℕ) → IsTrue (is_active lists.now node) → IsTrue (holds self.old.visits node) }
        requires once { IsOnce lists.now }
        ensures visits { self.new.visits ≡ self.old.visits }
        ensures lists { self.new.lists ≡ lists.now }
    {
        self.seating.set_lists(lists);
        write_inactive(&self.seating, self.visits.list(0), &mut self.inactive);
    }

    /// How many lists there are.
    #[inline]
    pub fn vehicles(&self) -> u32
        ensures value { result ≡ length self.now.lists }
        ensures few { result ≤ 100 }
    {
        self.seating.vehicles() as u32
    }

    /// How many visits the list of a vehicle has.
    #[inline]
    pub fn len(&self, v: u32) -> u32
        requires vehicle { v < length self.now.lists }
        ensures value { result ≡ length (route self.now.lists v) }
        ensures few { result ≤ 1000 }
    {
        self.seating.len(v) as u32
    }

    /// The visit at a place of a vehicle.
    #[inline]
    pub fn node_at(&self, v: u32, place: u32) -> u32
        requires vehicle { v < length self.now.lists }
        requires place { place < length (route self.now.lists v) }
        ensures { result ≡ slice_index (route self.now.lists v) place }
    {
        self.seating.node_at(v, place)
    }

    /// The visits of a vehicle in order.
    #[inline]
    pub fn list(&self, v: u32) -> &[u32]
        requires vehicle { v < length self.now.lists }
        ensures value { result.now ≡ route self.now.lists v }
        ensures few { length result.now ≤ 1000 }
    {
        self.seating.list(v)
    }

    /// Writes the nodes of pieces of these lists, joined, over a row. Cost terms, filters and the bounds of
    /// `vr_earliest` ask it.
    pub fn join_into(&self, pieces: &[Piece], row: &mut Row)
        requires within { All (IsWithin self.now.lists) pieces.now }
        requires room { length (joined self.now.lists pieces.now) ≤ 1000 }
        ensures { row.new ≡ joined self.now.lists pieces.now }
    {
        fill(&self.seating, pieces, row);
    }

    /// Writes the list that part `k` of a change of these lists gives its vehicle over a row. Filters and tabu search
    /// ask it.
    pub fn write_after(&self, change: &Change, k: usize, row: &mut Row)
        requires made { IsMadeOn self.now change.now }
        requires part { k < length change.now }
        ensures { row.new ≡ joined self.now.lists (part_at change.now k).pieces }
    {
        self.seating.know_once();
        fill(&self.seating, change.pieces(k), row);
    }

    /// The seat of a visit, `None` if it is in no list.
    #[inline]
    pub fn seat(&self, node: u32) -> Option<Seat>
        ensures { MatchOption result (is_active self.now.lists node ≡ false)
            (λ seat. IsSeat self.now.lists node seat.vehicle seat.place) }
    {
        if (node as usize) < self.seating.nodes() {
            return self.seating.seat(node);
        }
        None
    }

    /// The vehicle whose list a node is in, `None` if it is in no list. `vr_known` asks it, for the vehicle that serves
    /// a pair.
    #[inline]
    pub fn vehicle_of(&self, node: u32) -> Option<u32>
        ensures { MatchOption result (is_active self.now.lists node ≡ false)
            (λ v. (k : ℕ) × IsSeat self.now.lists node v k) }
    {
        let seat = self.seat(node)?;
        Some(seat.vehicle)
    }

    /// The place of a node in its list, `None` if it is in no list. Tests alone ask it.
    #[inline]
    pub fn place_of(&self, node: u32) -> Option<u32>
        ensures { MatchOption result (is_active self.now.lists node ≡ false)
            (λ k. (v : ℕ) × IsSeat self.now.lists node v k) }
    {
        let seat = self.seat(node)?;
        Some(seat.place)
    }

    /// Whether a node is in some list.
    #[inline]
    pub fn is_active(&self, node: u32) -> bool
        ensures { result ≡ is_active self.now.lists node }
    {
        self.seat(node).is_some()
    }

    /// No visit is at two places. It does nothing.
    #[inline]
    pub fn know_once(&self)
        ensures { IsOnce self.now.lists }
    {
        self.seating.know_once();
    }

    /// Each node in a list is one of the visits. It does nothing.
    #[inline]
    pub fn know_entries(&self)
        ensures { (node : ℕ) → IsTrue (is_active self.now.lists node) → IsTrue (holds self.now.visits node) }
    {
        // To read a field is to know what holds of all routes.
        let _visits = &self.visits;
    }

    /// Whether a node is a visit in no list.
    #[inline]
    pub fn is_inactive(&self, node: u32) -> bool
        ensures { result ≡ (holds self.now.visits node && not (is_active self.now.lists node)) }
    {
        if (node as usize) < self.seating.nodes() {
            return self.visits.seat(node).is_some() && self.seating.seat(node).is_none();
        }
        false
    }

    /// The least visit at or above `node` that is in no list. It is for users of the library: nothing here calls it.
    pub fn inactive_from(&self, node: u32) -> Option<u32>
        ensures { result ≡ find (λ x. nat_le node x) (inactive_of self.now.visits self.now.lists) }
    {
        first_from(self.inactive.as_slice(), node)
    }

    /// The same routes.
    pub fn copy(&self, alloc: Global) -> Result<Routes, NoMemory>
        ensures { IfOk result (λ routes. routes ≡ self.now) }
    {
        let visits = self.visits.copy(alloc)?;
        let seating = self.seating.copy(alloc)?;
        Ok(Routes::of(visits, seating))
    }

    /// The index of the stop after an index. `None` at an inactive visit, at an end, and at the start of an unused
    /// vehicle. Indices are those of `Indices`; they are for users of the library, and nothing here calls it.
    pub fn next(&self, index: u32) -> Option<u32>
        requires index { index < end_index self.now (length self.now.lists) }
        ensures { MatchOption result (HasNoNext self.now index) (λ after. IsNext self.now index after) }
    {
        let visits = self.visits.len(0) as u32;
        if index < visits {
            return match self.seat(self.visits.node_at(0, index)) {
                None => None,
                Some(seat) => {
                    // That a list is short says that the sum fits.
                    let _few = self.len(seat.vehicle);
                    Some(self.stop_index(seat.vehicle, seat.place + 2))
                }
            };
        }
        let v = index - visits;
        if v >= self.vehicles() {
            return None;
        }
        if self.len(v) == 0 {
            return None;
        }
        Some(self.stop_index(v, 1))
    }

    /// The index of the stop before an index. `None` at an inactive visit, at a start, and at the end of an unused
    /// vehicle. It is for users of the library too.
    pub fn previous(&self, index: u32) -> Option<u32>
        requires index { index < end_index self.now (length self.now.lists) }
        ensures { MatchOption result (HasNoPrevious self.now index) (λ before. IsNext self.now before index) }
    {
        let visits = self.visits.len(0) as u32;
        if index < visits {
            return match self.seat(self.visits.node_at(0, index)) {
                None => None,
                Some(seat) => Some(self.stop_index(seat.vehicle, seat.place)),
            };
        }
        let starts = index - visits;
        if starts < self.vehicles() {
            return None;
        }
        let v = starts - self.vehicles();
        let n = self.len(v);
        if n == 0 {
            return None;
        }
        Some(self.stop_index(v, n))
    }

    // The index of a stop of a vehicle. Stop 0 is its start, stop `k + 1` the visit at place `k`, and the last stop its
    // end.
    fn stop_index(&self, v: u32, stop: u32) -> u32
        requires vehicle { v < length self.now.lists }
        requires stop { stop ≤ length (route self.now.lists v) + 1 }
        ensures { IsStop self.now result v stop }
    {
        let visits = self.visits.len(0) as u32;
        if stop == 0 {
            return visits + v;
        }
        if stop > self.len(v) {
            return visits + (self.vehicles() + v);
        }
        self.visit_index(self.node_at(v, stop - 1))
    }

    // The index of an active visit.
    fn visit_index(&self, node: u32) -> u32
        requires active { IsTrue (is_active self.now.lists node) }
        ensures low { result < length self.now.visits }
        ensures found { slice_index self.now.visits result ≡ node }
    {
        match self.visits.seat(node) {
            None => unreachable!(),
            Some(seat) => seat.place,
        }
    }

    /// The visits in no list, ascending.
    #[inline]
    pub fn inactive(&self) -> &[u32]
        ensures value { result.now ≡ inactive_of self.now.visits self.now.lists }
        ensures few { length result.now ≤ 1000 }
    {
        self.inactive.as_slice()
    }
}

// One list: the visits, ascending.
pub fn visits_of(alloc: Global, model: &RoutingModel) -> Result<Seating, NoMemory>
    requires few { model.now.nodes ≤ 1000 }
    ensures lists { IfOk result (λ seating. seating.lists ≡ visits model.now ∷ []) }
    ensures nodes { IfOk result (λ seating. seating.nodes ≡ model.now.nodes) }
{
    let mut seating = Seating::empty(alloc, 1, model.nodes as usize)?;
    for node in 0..model.nodes {
        add_visit(model, node, &mut seating);
    }
    Ok(seating)
}

// Puts a node after the visits before it, if it is a visit.
fn add_visit(model: &RoutingModel, node: u32, seating: &mut Seating)
    requires node { node < seating.old.nodes }
    requires before { seating.old.lists ≡ filter (is_visit model.now) (below node) ∷ [] }
    ensures lists { seating.new.lists ≡ filter (is_visit model.now) (below (node + 1)) ∷ [] }
    ensures nodes { seating.new.nodes ≡ seating.old.nodes }
{
    if model.is_visit(node) {
        seating.put(0, node);
    }
}

// Puts the nodes of lists into empty lists, and says whether it can. It can if there are as many, each node is a visit,
// and none comes twice. If it cannot, some may be in, and the seating is thrown away.
fn seat_lists(model: &RoutingModel, lists: &[Seq<u32>], seating: &mut Seating) -> bool
    requires nodes { seating.old.nodes ≡ model.now.nodes }
    requires empty { (v : ℕ) → route seating.old.lists v ≡ [] }
    ensures nodes { seating.new.nodes ≡ seating.old.nodes }
    ensures many { length seating.new.lists ≡ length seating.old.lists }
    ensures lists { IsTrue result → seating.new.lists ≡ lists.now }
    ensures visits { IsTrue result → HaveVisits model.now seating.new.lists }
    ensures passes { length lists.now ≡ length seating.old.lists → HaveVisits model.now lists.now
        → IsOnce lists.now → result ≡ true }
{
    seating.know_few();
    if lists.len() != seating.vehicles() {
        return false;
    }
    for v in 0..lists.len() {
        if !seat_list(model, lists[v].as_slice(), v as u32, seating) {
            return false;
        }
    }
    true
}

// Puts the nodes of a list after those of a vehicle, as far as each is a visit in no list. Whether all are.
fn seat_list(model: &RoutingModel, list: &[u32], v: u32, seating: &mut Seating) -> bool
    requires nodes { seating.old.nodes ≡ model.now.nodes }
    requires vehicle { v < length seating.old.lists }
    requires visits { HaveVisits model.now seating.old.lists }
    ensures nodes { seating.new.nodes ≡ seating.old.nodes }
    ensures many { length seating.new.lists ≡ length seating.old.lists }
    ensures lists { let after = with_route seating.old.lists v (route seating.old.lists v ++ list.now) in
        IsTrue result → seating.new.lists ≡ after }
    ensures visits { HaveVisits model.now seating.new.lists }
    ensures passes { let after = with_route seating.old.lists v (route seating.old.lists v ++ list.now) in
        HaveVisits model.now after → IsOnce after → result ≡ true }
{
    for &node in list {
        if !model.is_visit(node) {
            return false;
        }
        if seating.is_active(node) {
            return false;
        }
        seating.put(v, node);
    }
    true
}

// The first of ascending nodes that is not below `node`, `None` if each is below it.
fn first_from(nodes: &[u32], node: u32) -> Option<u32>
    requires ascending { IsStrictlyIncreasing nodes.now }
    ensures { result ≡ find (λ x. nat_le node x) nodes.now }
{
    let place = nodes.partition_point(|&x| x < node);
    if place < nodes.len() {
        return Some(nodes[place]);
    }
    None
}

// Writes the visits in no list.
fn write_inactive(seating: &Seating, visits: &[u32], inactive: &mut Row)
    requires few { length visits.now ≤ 1000 }
    requires nodes { All (λ node. node < seating.now.nodes) visits.now }
    ensures { inactive.new ≡ inactive_of visits.now seating.now.lists }
{
    inactive.clear();
    for &node in visits {
        if seating.seat(node).is_none() {
            inactive.push(node);
        }
    }
}
