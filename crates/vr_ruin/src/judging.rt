//! Which routes are better, and which are accepted.

ghost use Rattle.std.specs.Prelude.{◌≡◌, ◌≤◌, ◌^◌, ◌*◌, ◌/◌, ◌+ℤ◌, pos};
ghost use Rattle.vr_ruin.specs.Payments.{IsCost};
ghost use Rattle.vr_ruin.specs.Standings.{is_less, standing_with};

/// What routes lack to be valid, and what they cost.
#[derive(Clone, Copy)]
pub(crate) struct Worth {
    pub(crate) lack: u32,
    pub(crate) cost: i64,
}

/// How far a search is: its tries and solutions, and what its last routes are worth, the best ones, and those of its
/// first cost.
#[derive(Clone, Copy)]
pub(crate) struct Standing {
    pub(crate) used: u64,
    pub(crate) found: u64,
    pub(crate) here: Worth,
    pub(crate) best: Worth,
    pub(crate) first: Worth,
}

/// Whether routes lack less than others, or as much and cost less than a bound.
pub(crate) fn is_below(new: Worth, old: Worth, bound: i64) -> bool
    ensures { result ≡ is_less new old bound }
{
    new.lack < old.lack || (new.lack == old.lack && new.cost < bound)
}

/// Whether routes are accepted after others, at heat `h` (times 2^16) and a word with `e` leading zeros.
pub(crate) fn is_accepted(h: u64, e: u32, old: Worth, new: Worth) -> bool
    requires heat { h ≤ 2 ^ 56 }
    requires zeros { e ≤ 32 }
    requires cost { IsCost old.cost }
    ensures { result ≡ is_less new old (old.cost +ℤ pos (h * e / 2 ^ 16)) }
{
    let allowed = h * e as u64 / 65536;
    is_below(new, old, old.cost + allowed as i64)
}

impl Standing {
    /// When a search begins: its first routes count as found, and are the best.
    pub(crate) fn begun(first: Worth) -> Standing
        ensures { result ≡ record { used = 0; found = 1; here = first; best = first; first = first } }
    {
        Standing {
            used: 0,
            found: 1,
            here: first,
            best: first,
            first,
        }
    }

    /// Whether routes become the best.
    pub(crate) fn is_best(self, new: Worth) -> bool
        ensures { result ≡ is_less new self.best self.best.cost }
    {
        is_below(new, self.best, self.best.cost)
    }

    /// After routes were accepted.
    pub(crate) fn accept(self, new: Worth) -> Standing
        requires used { self.used ≤ 1000000000 }
        requires found { self.found ≤ 1000000000 }
        ensures { result ≡ standing_with self new }
    {
        let best = if self.is_best(new) { new } else { self.best };
        let first = if self.first.lack == 0 {
            self.first
        } else {
            new
        };
        Standing {
            used: self.used + 1,
            found: self.found + 1,
            here: new,
            best,
            first,
        }
    }
}
