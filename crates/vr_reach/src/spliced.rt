//! A list that keeps the front and the end of another one.

ghost use Rattle.std.specs.Prelude.{◌≡◌, ◌<◌, ◌≤◌, ◌+◌, ◌^◌, length, slice_index};
ghost use Rattle.vr_reach.specs.Spliced.{spliced};

use std::marker::Model;

/// Nodes that take the place of some others in a list. In the list 1, 2, 3, 4 a 9 from place 1 up to place 3 makes 1,
/// 9, 4.
#[derive(Clone, Copy)]
pub struct Splice<'a> {
    /// The place of the first node that goes.
    pub front: usize,
    /// The place after the last one.
    pub behind: usize,
    /// The nodes that come.
    pub middle: &'a [u32],
}

// The nodes of a list below place `front` and those from place `behind` on, with others between.
#[derive(Drop)]
pub(crate) struct Spliced<'a> {
    old: &'a [u32],
    front: usize,
    behind: usize,
    middle: &'a [u32],
}

impl<'a> Model for Spliced<'a> {
    ghost use Rattle.std.specs.Prelude.{ℕ, List, length};
    ghost use Rattle.vr_reach.specs.Spliced.{spliced, AreSeams};

    ghost Value = { List ℕ };

    ghost view = { λ s. spliced s.old.now s.front s.behind s.middle.now };

    ghost invariant = { λ s. AreSeams (length s.old.now) s.front s.behind };
}

impl<'a> Spliced<'a> {
    // A list with other nodes in the place of those from place `front` up to place `behind`.
    #[inline]
    pub(crate) fn of(old: &'a [u32], front: usize, behind: usize, middle: &'a [u32]) -> Spliced<'a>
        requires order { front ≤ behind }
        requires high { behind ≤ length old.now }
        ensures { result ≡ spliced old.now front behind middle.now }
    {
        Spliced {
            old,
            front,
            behind,
            middle,
        }
    }

    // A list that keeps nothing of another.
    #[inline]
    pub(crate) fn whole(list: &'a [u32]) -> Spliced<'a>
        ensures { result ≡ list.now }
    {
        Spliced {
            old: list,
            front: 0,
            behind: list.len(),
            middle: list,
        }
    }

    // How many nodes the list has.
    #[inline]
    pub(crate) fn len(&self) -> usize
        ensures value { result ≡ length self.now }
        ensures fits { length self.now + 2 < 2 ^ 64 }
    {
        self.front + self.middle.len() + (self.old.len() - self.behind)
    }

    // The node at a place.
    #[inline]
    pub(crate) fn get(&self, k: usize) -> u32
        requires { k < length self.now }
        ensures { result ≡ slice_index self.now k }
    {
        if k < self.front {
            return self.old[k];
        }
        let beyond = k - self.front;
        if beyond < self.middle.len() {
            return self.middle[beyond];
        }
        self.old[beyond - self.middle.len() + self.behind]
    }
}
