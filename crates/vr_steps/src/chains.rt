//! Breaks taken one after another.

ghost use Rattle.std.specs.Prelude.{◌≤◌, ◌↔◌, All, IsSome, IsNone, IfSome, length};
ghost use Rattle.vr_model.specs.schedules.Levels.{FitBefore, FitAfter};
ghost use Rattle.vr_model.specs.tables.WellFormed.{IsBreak};
ghost use Rattle.vr_steps.specs.Chains.{CanBeginInTime, HasBreakInFront, IsChainOf, IsLate, IsSmall};
ghost use Rattle.vr_steps.specs.Fits.{IsBoundFound, IsEarliest, IsLatest};

use vr_model::BreakRow;
use vr_model::limits::HORIZON;

// The bound if there is no break, and its negative the lower one: every moment that matters lies between them.
const FAR: i64 = 1 << 42;

/// What breaks that are taken one after another come to. Take a break of 30 that starts in 0 to 100, and then one of 20
/// that starts in 60 to 120. They are 50 long, are begun by 90, and are over at 80 at the earliest.
#[derive(Clone, Copy, Debug, PartialEq, Eq)]
pub struct Chain {
    /// How long they are together.
    pub total: i64,
    /// The last moment from which they can all be taken.
    pub latest: i64,
    /// The first moment at which they can all be over.
    pub first_end: i64,
}

impl Chain {
    // What these breaks come to; `None` if they cannot be taken one after another.
    pub(crate) fn of(rows: &[BreakRow]) -> Option<Chain>
        requires few { length rows.now ≤ 8 }
        requires rows { All IsBreak rows.now }
        ensures some { IsSome result ↔ CanBeginInTime rows.now }
        ensures value { IfSome result (IsChainOf rows.now) }
    {
        let mut chain = Chain {
            total: 0,
            latest: FAR,
            first_end: -FAR,
        };
        let mut k = rows.len();
        'rows: while k > 0 {
            k -= 1;
            chain = chain.after(rows[k])?;
        }
        Some(chain)
    }

    // The breaks with one more in front; `None` if that one cannot begin in time.
    fn after(self, row: BreakRow) -> Option<Chain>
        requires row { IsBreak row }
        requires small { IsSmall self }
        ensures some { IfSome result (HasBreakInFront row self) }
        ensures none { IsNone result → IsLate row self }
    {
        let latest = row.to.min(self.latest - row.duration);
        if row.from > latest {
            return None;
        }
        let end = row.from + row.duration + self.total;
        Some(Chain {
            total: row.duration + self.total,
            latest,
            first_end: end.max(self.first_end),
        })
    }
}

// The first cumul before which the breaks can all be taken; `None` if there is none.
pub(crate) fn earliest(rows: &[BreakRow]) -> Option<i64>
    requires few { length rows.now ≤ 8 }
    requires rows { All IsBreak rows.now }
    ensures { IsBoundFound (IsEarliest rows.now) (FitBefore rows.now) result }
{
    let chain = Chain::of(rows)?;
    let first = chain.first_end.max(0);
    if first > HORIZON {
        return None;
    }
    Some(first)
}

// The last cumul after which the breaks can all be taken; `None` if there is none.
pub(crate) fn last(rows: &[BreakRow]) -> Option<i64>
    requires few { length rows.now ≤ 8 }
    requires rows { All IsBreak rows.now }
    ensures { IsBoundFound (IsLatest rows.now) (FitAfter rows.now) result }
{
    let chain = Chain::of(rows)?;
    Some(chain.latest.min(HORIZON))
}
