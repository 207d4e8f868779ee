//! What two lists share at their ends, between which they differ. A walk leaves the rows at the last stop of the shared
//! front and meets them at the first one of the shared back (`walking`). Of the rows, forward levels are written anew
//! after the shared front, backward ones before the shared back (`changed`). A splice may put nodes back at the places
//! that they had, so more may be shared than it says.

ghost use Rattle.std.specs.Prelude.{◌+◌, ◌≤◌, length};
ghost use Rattle.vr_reach.specs.Stretches.{SharesFront, SharesBack, DifferAtFront, DifferAtBack, IsStretchBetween};

use crate::spliced::Spliced;

/// How many nodes two lists share at the front and at the back. Of 1, 2, 3, 4 and 1, 9, 3, 4 these are one and two.
#[derive(Clone, Copy)]
pub struct Stretch {
    /// The nodes that both begin with.
    pub front: usize,
    /// The nodes that both end with, beside those.
    pub back: usize,
}

impl Stretch {
    // What two lists share: as many nodes at the front as they can, and then as many at the back. Nodes that are known
    // to be shared are not looked at.
    pub(crate) fn of(old: &[u32], new: &Spliced, known: Stretch) -> Stretch
        requires front { SharesFront old.now new.now known.front }
        requires back { SharesBack old.now new.now known.back }
        ensures { IsStretchBetween old.now new.now result }
    {
        let front = shared_front(old, new, known.front);
        let back = shared_back(old, new, front, known.back);
        Stretch { front, back }
    }
}

// How many nodes two lists share at the front: some that are known, and more.
fn shared_front(old: &[u32], new: &Spliced, known: usize) -> usize
    requires known { SharesFront old.now new.now known }
    ensures shares { SharesFront old.now new.now result }
    ensures most { DifferAtFront old.now new.now result }
{
    let most = old.len().min(new.len());
    let mut front = known;
    'nodes: while front < most && old[front] == new.get(front) {
        front += 1;
    }
    front
}

// How many nodes two lists share at the back, beside those that they share at the front: some that are known, and more.
fn shared_back(old: &[u32], new: &Spliced, front: usize, known: usize) -> usize
    requires front { SharesFront old.now new.now front }
    requires known { SharesBack old.now new.now known }
    ensures shares { SharesBack old.now new.now result }
    ensures most { DifferAtBack old.now new.now front result }
    ensures apart { front + result ≤ length new.now }
    ensures apart_old { front + result ≤ length old.now }
{
    let most = old.len().min(new.len()) - front;
    let mut back = known.min(most);
    'nodes: while back < most && old[old.len() - 1 - back] == new.get(new.len() - 1 - back) {
        back += 1;
    }
    back
}
