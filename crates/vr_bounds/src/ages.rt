//! Since when gaps are in a list.

ghost use Rattle.std.specs.Prelude.{◌≡◌, ◌<◌, [], ◌∷◌, ◌++◌, length, slice_index_or};

use arrayvec::ArrayVec;
use std::marker::Model;

/// The age of each gap of a list, of which there is one more than nodes: at most 1001.
#[derive(Drop)]
pub struct Ages {
    items: ArrayVec<u32, 1001>,
}

impl Model for Ages {
    ghost use Rattle.std.specs.Prelude.{ℕ, List};

    ghost Value = { List ℕ };

    ghost view = { λ s. s.items.items };
}

impl Ages {
    /// Of no gap.
    pub fn new() -> Ages
        ensures { result ≡ [] }
    {
        Ages {
            items: ArrayVec::new(),
        }
    }

    /// The age of the gap at a place.
    #[inline(always)]
    pub fn at(&self, place: usize) -> u32
        requires { place < length self.now }
        ensures { result ≡ slice_index_or self.now place 0 }
    {
        self.items[place]
    }

    /// One gap more, after the others.
    #[inline]
    pub fn push(&mut self, age: u32)
        requires { length self.old < 1001 }
        ensures { self.new ≡ self.old ++ age ∷ [] }
    {
        self.items.push(age);
    }
}
