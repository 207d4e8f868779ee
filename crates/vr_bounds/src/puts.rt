//! What it adds at least to put each node into the list of one vehicle.

ghost use Rattle.std.specs.Prelude.{◌≡◌, ◌<◌, ◌≤◌, ◌≤ℤ◌, [], All, IsTrue, IfOk, length};
ghost use Rattle.vr_arccosts.specs.Runs.{gap_added};
ghost use Rattle.vr_bounds.specs.Kept.{age_at, next_age, ArePuts, IsLeast, IsPutsOf, IsUpTo, MayStand};

use crate::ages::Ages;
use crate::drivers::Driver;
use std::alloc::Global;
use vr_model::{NoMemory, Seq};
use vr_routes::Row;

/// The least that any gap no younger than a stamp adds, or less.
#[derive(Clone, Copy)]
pub struct Bound {
    pub least: i64,
    /// Gaps with a greater age are younger.
    pub stamp: u32,
    /// What the clock was when all gaps were gone over last, so that the number was exact then. No contract asks.
    pub walked: u32,
}

// What is known of a node before any gap was looked at.
const UNKNOWN: Bound = Bound {
    least: i64::MAX,
    stamp: 0,
    walked: 0,
};

/// The list of a vehicle, the ages of its gaps, and for each node a bound of what its gaps add.
#[derive(Drop)]
pub struct Puts {
    pub row: Row,
    pub ages: Ages,
    /// It rises with each new list, and then stays at the greatest number that it can be. The gaps that are new get it
    /// as age. It begins at 1, so that each gap is younger than the stamp 0.
    pub clock: u32,
    pub bounds: Seq<Bound>,
}

impl Puts {
    /// Of a vehicle without visits, with nothing known of any node. The only error is out of memory.
    pub fn new(alloc: Global, driver: Driver<'_>) -> Result<Puts, NoMemory>
        ensures { IfOk result (IsPutsOf driver.entry.closed.model.now driver.entry.vehicle []) }
    {
        let nodes = driver.closed.model.nodes;
        let mut bounds = Seq::with_capacity(alloc, nodes as usize)?;
        for _node in 0..nodes {
            bounds.push(UNKNOWN)?;
        }
        let mut ages = Ages::new();
        ages.push(1);
        Ok(Puts {
            row: Row::new(),
            ages,
            clock: 1,
            bounds,
        })
    }

    // The age of gaps that come next.
    #[inline(always)]
    fn next_age(&self) -> u32
        ensures { result ≡ next_age self.now.clock }
    {
        self.clock.saturating_add(1)
    }

    /// The vehicle gets another list. The gaps of it that were in the list before keep their age.
    pub fn follow(&mut self, driver: Driver<'_>, row: Row)
        requires puts { ArePuts driver.closed.model.now driver.vehicle self.old }
        requires nodes { All (λ node. node < driver.closed.model.now.nodes) row }
        ensures puts { ArePuts driver.entry.closed.model.now driver.entry.vehicle self.new }
        ensures row { self.new.row ≡ row }
    {
        let mut ages = Ages::new();
        for place in 0..row.len() + 1 {
            ages.push(self.age_after(driver, row.as_slice(), place));
        }
        let clock = self.next_age();
        self.ages = ages;
        self.clock = clock;
        self.row = row;
    }

    // The age of a gap of the next list. It is that of the gap of this list between the same stops, as many places from
    // the start or as many from the end. Else it is that of new gaps.
    #[inline]
    fn age_after(&self, driver: Driver<'_>, next: &[u32], place: usize) -> u32
        requires puts { ArePuts driver.closed.model.now driver.vehicle self.now }
        requires nodes { All (λ node. node < driver.closed.model.now.nodes) next.now }
        requires place { place ≤ length next.now }
        ensures { MayStand driver.entry.closed.model.now driver.entry.vehicle self.now next.now place result }
    {
        let from_start = self.age_by(driver, place, next, place);
        let from_end = (place + self.row.len()).saturating_sub(next.len());
        from_start.min(self.age_by(driver, from_end, next, place))
    }

    // The age of a gap of the next list. It is that of the gap at a place of this list, if that is between the same
    // stops. Else it is that of new gaps.
    #[inline]
    fn age_by(&self, driver: Driver<'_>, old: usize, next: &[u32], place: usize) -> u32
        requires puts { ArePuts driver.closed.model.now driver.vehicle self.now }
        requires nodes { All (λ node. node < driver.closed.model.now.nodes) next.now }
        requires place { place ≤ length next.now }
        ensures { MayStand driver.entry.closed.model.now driver.entry.vehicle self.now next.now place result }
    {
        if driver.is_same_gap(self.row.as_slice(), old, next, place) {
            return self.ages.at(old);
        }
        self.next_age()
    }

    /// Whether each gap of the list adds no less than a bound if a node is put into it: true only if it is so.
    #[inline]
    pub fn reach(&mut self, driver: Driver<'_>, node: u32, bound: i64) -> bool
        requires puts { ArePuts driver.closed.model.now driver.vehicle self.old }
        requires some { 0 < length self.old.row }
        requires node { node < driver.closed.model.now.nodes }
        ensures puts { ArePuts driver.entry.closed.model.now driver.entry.vehicle self.new }
        ensures row { self.new.row ≡ self.old.row }
        ensures no_less { IsTrue result
            → IsUpTo driver.entry.closed.model.now driver.entry.vehicle self.old.row node bound }
    {
        let kept = *self.bounds.get(node as usize);
        if self.least_by(driver, node, kept) >= bound {
            return true;
        }
        // worked out for this very list, it is no bound alone
        if kept.walked == self.clock {
            return false;
        }
        let anew = Bound {
            least: i64::MAX,
            stamp: 0,
            walked: self.clock,
        };
        self.least_by(driver, node, anew) >= bound
    }

    // What each gap adds at least, by a bound that is known: it is lowered by the gaps that are younger, and kept.
    #[inline]
    fn least_by(&mut self, driver: Driver<'_>, node: u32, known: Bound) -> i64
        requires puts { ArePuts driver.closed.model.now driver.vehicle self.old }
        requires some { 0 < length self.old.row }
        requires node { node < driver.closed.model.now.nodes }
        requires known { IsLeast driver.closed.model.now driver.vehicle self.old node known }
        ensures puts { ArePuts driver.entry.closed.model.now driver.entry.vehicle self.new }
        ensures row { self.new.row ≡ self.old.row }
        ensures ages { self.new.ages ≡ self.old.ages }
        ensures least { IsUpTo driver.entry.closed.model.now driver.entry.vehicle self.old.row node result }
    {
        if self.clock <= known.stamp {
            return known.least;
        }
        let least = self.lowered(driver, node, known);
        let stamp = self.next_age() - 1;
        self.bounds.set(
            node as usize,
            Bound {
                least,
                stamp,
                walked: known.walked,
            },
        );
        least
    }

    // A bound that is known, lowered by the gaps that are younger.
    fn lowered(&self, driver: Driver<'_>, node: u32, known: Bound) -> i64
        requires puts { ArePuts driver.closed.model.now driver.vehicle self.now }
        requires some { 0 < length self.now.row }
        requires node { node < driver.closed.model.now.nodes }
        requires known { IsLeast driver.closed.model.now driver.vehicle self.now node known }
        ensures { IsUpTo driver.entry.closed.model.now driver.entry.vehicle self.now.row node result }
    {
        let stamp = known.stamp;
        let mut least = known.least;
        for place in 0..self.row.len() + 1 {
            least = self.lowered_at(driver, node, place, stamp, least);
        }
        least
    }

    // A number, lowered by what a node adds in one gap, if this is younger than a stamp.
    #[inline(always)]
    fn lowered_at(&self, driver: Driver<'_>, node: u32, place: usize, stamp: u32, least: i64) -> i64
        requires puts { ArePuts driver.closed.model.now driver.vehicle self.now }
        requires some { 0 < length self.now.row }
        requires node { node < driver.closed.model.now.nodes }
        requires place { place ≤ length self.now.row }
        ensures no_more { result ≤ℤ least }
        ensures here { (age_at self.now place ≤ stamp → least ≤ℤ gap_added driver.entry.closed.model.now
            driver.entry.vehicle self.now.row node node place) → result ≤ℤ gap_added driver.entry.closed.model.now
            driver.entry.vehicle self.now.row node node place }
    {
        if self.ages.at(place) <= stamp {
            return least;
        }
        least.min(driver.gap(self.row.as_slice(), place, node))
    }
}
