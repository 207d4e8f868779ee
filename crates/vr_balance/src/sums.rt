//! Sums along paths.

ghost use Rattle.std.specs.Prelude.{◌≡◌, ◌<◌, ◌≤◌, ◌+◌, ◌^◌, ℕ, ℤ, List, [], ◌∷◌, pos, neg_ℤ, length, take};
ghost use Rattle.std.specs.Prelude.{slice_index_or, slice_range};
ghost use Rattle.vr_model.specs.tables.Numbers.{number_at};
ghost use Rattle.vr_model.specs.tables.WellFormed.{IsIn};
ghost use Rattle.vr_balance.specs.Sums.{last_of, path_sum, AreSums, AreSumsTo, HaveRange, IsUpTo};

use arrayvec::ArrayVec;
use std::marker::Model;

/// At each node of a path, from its first one on, the sum of what some measure gives of the arcs up to it. The path has
/// at most 1002 nodes (a start, 1000 visits and an end), and the measure is in `0..=2^40`. The sums tell neither the
/// path nor the measure.
#[derive(Drop)]
pub struct Sums {
    items: ArrayVec<i64, 1002>,
}

impl Model for Sums {
    ghost use Rattle.std.specs.Prelude.{ℤ, List};

    ghost Value = { List ℤ };

    ghost view = { λ s. s.items.items };
}

impl Sums {
    /// The sums along a path of one node.
    pub fn new() -> Sums
        ensures { result ≡ pos 0 ∷ [] }
    {
        let mut items = ArrayVec::new();
        items.push(0);
        Sums { items }
    }

    /// Begins again, with a path of one node.
    pub fn restart(&mut self)
        ensures { self.new ≡ pos 0 ∷ [] }
    {
        self.items.clear();
        self.items.push(0);
    }

    /// The path goes on along an arc of this value.
    #[inline]
    pub fn extend(&mut self, value: i64)
        requires range { HaveRange self.old }
        requires some { 0 < length self.old }
        requires room { length self.old < 1002 }
        requires value { IsUpTo 1 value }
        ensures { (f : ℕ → ℕ → ℤ) (first : ℕ) (nodes : List ℕ) (n : ℕ) → AreSumsTo f first nodes n self.old
            → n < length nodes → value ≡ f (last_of first (take n nodes)) (slice_index_or nodes n 0)
            → AreSumsTo f first nodes (n + 1) self.new }
    {
        let sum = self.at(self.items.len() - 1) + value;
        self.items.push(sum);
    }

    /// The sum at a place of the path: 0 at the first node.
    #[inline]
    pub fn at(&self, place: usize) -> i64
        requires place { place < length self.now }
        requires range { HaveRange self.now }
        ensures value { result ≡ number_at self.now place }
        ensures range { IsUpTo place result }
        ensures few { length self.now ≤ 1002 }
    {
        self.items[place]
    }

    /// The sum along the arcs from one place of the path to another.
    #[inline]
    pub fn between(&self, from: u32, to: u32) -> i64
        requires order { from ≤ to }
        requires place { to < length self.now }
        requires range { HaveRange self.now }
        ensures value { (f : ℕ → ℕ → ℤ) (first : ℕ) (nodes : List ℕ) → AreSums f first nodes self.now
            → result ≡ path_sum f (last_of first (take from nodes)) (slice_range nodes from to) }
        ensures range { IsIn (neg_ℤ (pos (2 ^ 50))) (pos (2 ^ 50)) result }
    {
        self.at(to as usize) - self.at(from as usize)
    }
}
