//! The list of a vehicle after a change.

ghost use Rattle.std.specs.Prelude.{◌≡◌, ◌==◌, ◌&&◌, ◌<◌, ◌≤◌, All, Some, IsTrue, [], length, nat_lt, slice_index};
ghost use Rattle.vr_model.specs.routes.Routes.{is_distinct};
ghost use Rattle.vr_routes.specs.Changes.{IsMadeOn};
ghost use Rattle.vr_routes.specs.Pieces.{joined, part_at};
ghost use Rattle.vr_tabu.specs.Changed.{node_just_before};
ghost use Rattle.vr_tabu.specs.Parts.{ArePlaced};

use std::marker::Model;
use vr_routes::{Change, Routes, Row};

/// The list of a vehicle after a change, written out. Contracts see the list. The place of a visit in it is looked up.
#[derive(Drop)]
pub struct WrittenList {
    row: Row,
    // the place of each visit of the row; those of other visits do not count
    places: [u32; 1000],
}

impl Model for WrittenList {
    ghost use Rattle.std.specs.Prelude.{ℕ, List};
    ghost use Rattle.vr_tabu.specs.Parts.{ArePlaced};

    ghost Value = { List ℕ };

    ghost view = { λ l. l.row };

    ghost invariant = { λ l. ArePlaced l.row l.places };
}

impl WrittenList {
    /// The empty list.
    pub fn new() -> WrittenList
        ensures { result ≡ [] }
    {
        WrittenList {
            row: Row::new(),
            places: [0; 1000],
        }
    }

    /// Writes the list that part `k` of a change of these lists gives its vehicle over the list.
    pub fn write(&mut self, routes: &Routes, change: &Change, k: usize)
        requires made { IsMadeOn routes.now change.now }
        requires part { k < length change.now }
        requires visits { All (λ visit. visit < 1000) (joined routes.now.lists (part_at change.now k).pieces) }
        ensures { self.new ≡ joined routes.now.lists (part_at change.now k).pieces }
    {
        routes.write_after(change, k, &mut self.row);
        place_each(self.row.as_slice(), &mut self.places);
    }

    /// The visits in order.
    #[inline]
    pub fn as_slice(&self) -> &[u32]
        ensures { result.now ≡ self.now }
    {
        self.row.as_slice()
    }

    /// The node just before a visit, in a list that begins after `origin`; none if the visit is not in it.
    #[inline]
    pub fn node_before(&self, origin: u32, visit: u32) -> Option<u32>
        requires distinct { IsTrue (is_distinct self.now) }
        ensures { result ≡ node_just_before origin self.now visit }
    {
        let list = self.row.as_slice();
        let place = place_in(&self.places, visit);
        if is_at(list, place, visit) {
            return Some(node_before_place(list, origin, place));
        }
        None
    }
}

// Writes the place of each visit of a list.
fn place_each(list: &[u32], places: &mut [u32; 1000])
    requires visits { All (λ visit. visit < 1000) list.now }
    requires few { length list.now ≤ 1000 }
    ensures { ArePlaced list.now places.new }
{
    for k in 0..list.len() {
        places[list[k] as usize] = k as u32;
    }
}

// The place that is kept of a visit, which need not be there (`is_at`); 0 for a number that no visit has.
#[inline]
fn place_in(places: &[u32], visit: u32) -> u32
    ensures { result ≡ slice_index places.now visit }
{
    if (visit as usize) < places.len() {
        return places[visit as usize];
    }
    0
}

// Whether a visit is at a place of a list.
#[inline]
fn is_at(list: &[u32], place: u32, visit: u32) -> bool
    ensures { result ≡ (nat_lt place (length list.now) && (slice_index list.now place == visit)) }
{
    (place as usize) < list.len() && list[place as usize] == visit
}

/// The node just before a place of a list that begins after `origin`.
#[inline]
pub fn node_before_place(list: &[u32], origin: u32, place: u32) -> u32
    requires place { place < length list.now }
    requires distinct { IsTrue (is_distinct list.now) }
    ensures { Some result ≡ node_just_before origin list.now (slice_index list.now place) }
{
    if place == 0 {
        return origin;
    }
    list[place as usize - 1]
}
