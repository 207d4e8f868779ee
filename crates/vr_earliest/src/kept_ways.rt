//! What is kept of a list place by place. So a change of it is known by a walk along what the change puts in alone.

ghost use Rattle.std.specs.Prelude.{◌≡◌, ◌↔◌, ◌<◌, ◌≤◌, ◌+◌, ◌-◌, All, IsTrue, length, slice_index_or};
ghost use Rattle.vr_earliest.specs.Entries.{AreRestsTo, AreWaysTo, KeepsWays};

use crate::walks::Walk;
use arrayvec::ArrayVec;

/// What is kept of the list of a vehicle.
#[derive(Drop)]
pub struct KeptWays<W, R> {
    // the way along the first visits, for each number of visits
    ways: ArrayVec<W, 1001>,
    // what is left from each visit on and from the end, from the end backwards
    rests: ArrayVec<R, 1001>,
}

impl<W: Copy + Default + Drop, R: Copy + Default + Drop> KeptWays<W, R> {
    /// Of no list.
    pub fn new() -> KeptWays<W, R>
        ensures { length result.ways.items ≡ 0 }
    {
        KeptWays {
            ways: ArrayVec::new(),
            rests: ArrayVec::new(),
        }
    }

    /// Forgets the list. `vr_costfilter` alone calls it, which keeps no ways of some lists.
    pub fn forget(&mut self)
        ensures { length self.new.ways.items ≡ 0 }
    {
        self.ways.clear();
        self.rests.clear();
    }

    /// Whether the ways along a list of `n` visits are kept. `vr_costfilter` alone asks it: here ways are kept of every
    /// list for which there is room.
    #[inline]
    pub fn has_ways(&self, n: usize) -> bool
        requires { n ≤ 1000 }
        ensures { IsTrue result ↔ (length self.now.ways.items ≡ n + 1) }
    {
        self.ways.len() == n + 1
    }

    /// The way along the first `place` visits of the list.
    #[inline(always)]
    pub fn way(&self, place: u32) -> W
        requires place { place < length self.now.ways.items }
        ensures { (other : W) → result ≡ slice_index_or self.now.ways.items place other }
    {
        self.ways[place as usize]
    }

    /// What is left from a place of the list on, or from the end on, which is the place after the last visit.
    #[inline(always)]
    pub fn rest(&self, place: u32) -> R
        requires place { place < length self.now.rests.items }
        ensures { (other : R)
            → result ≡ slice_index_or self.now.rests.items (length self.now.rests.items - 1 - place) other }
    {
        self.rests[self.rests.len() - 1 - place as usize]
    }
}

/// Writes what is kept of a list.
pub fn write_ways<G: Walk>(kept: &mut KeptWays<G::Way, G::Rest>, guide: &G, list: &[u32])
    requires few { length list.now ≤ 1000 }
    requires nodes { All (G.can_visit guide.now) list.now }
    ensures { KeepsWays (G.start_way guide.now) (G.way_on guide.now) (G.end_rest guide.now) (G.rest_from guide.now)
        list.now kept.new }
{
    write_forwards(&mut kept.ways, guide, list);
    write_backwards(&mut kept.rests, guide, list);
}

// Writes the way along the first visits of a list, for each number of them.
fn write_forwards<G: Walk>(ways: &mut ArrayVec<G::Way, 1001>, guide: &G, list: &[u32])
    requires few { length list.now ≤ 1000 }
    requires nodes { All (G.can_visit guide.now) list.now }
    ensures { AreWaysTo (G.start_way guide.now) (G.way_on guide.now) list.now (length list.now) ways.new.items }
{
    let mut way = guide.way_out();
    ways.clear();
    ways.push(way);
    for k in 0..list.len() {
        way = guide.way_to_visit(way, list[k]);
        ways.push(way);
    }
}

// Writes what is left from each stop of a list on.
fn write_backwards<G: Walk>(rests: &mut ArrayVec<G::Rest, 1001>, guide: &G, list: &[u32])
    requires few { length list.now ≤ 1000 }
    requires nodes { All (G.can_visit guide.now) list.now }
    ensures { AreRestsTo (G.end_rest guide.now) (G.rest_from guide.now) list.now (length list.now) rests.new.items }
{
    let last = list.len();
    let mut rest = guide.rest_at_end();
    rests.clear();
    rests.push(rest);
    for k in 0..last {
        rest = guide.rest_before(list[last - 1 - k], rest);
        rests.push(rest);
    }
}
