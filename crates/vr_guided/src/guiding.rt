//! Which moves guided search accepts; the search itself is `searching`.

ghost use Rattle.std.specs.Prelude.{◌≡◌, ◌<◌, ◌≤◌, ◌*◌, ◌^◌, ◌*ℤ◌, ◌-ℤ◌, ◌≤ℤ◌, false, pos, IfSome, IsTrue, Some};
ghost use Rattle.std.specs.Prelude.{length, unsigned_abs};
ghost use Rattle.vr_guided.specs.Bounding.{IsLambda};
ghost use Rattle.vr_guided.specs.Counts.{counted};
ghost use Rattle.vr_guided.specs.RouteSums.{AreAllRouteSums};
ghost use Rattle.vr_guided.specs.Guides.{is_gain, makes_less};
ghost use Rattle.vr_guided.specs.Savings.{SavesAtMost};
ghost use Rattle.vr_known.specs.Touching.{AreFound};
ghost use Rattle.vr_model.specs.routes.Rules.{is_valid};
ghost use Rattle.vr_model.specs.tables.WellFormed.{IsIn};

use crate::changing::{WeighedChange, WeighedRoutes};
use crate::route_sums::AllRouteSums;
use crate::weights::Weights;
use vr_descent::Accept;
use vr_known::Touched;
use vr_model::{Lambda, Move};
use vr_routes::{Change, Routes};

// Up to this much of the penalised arc costs may be multiplied by `p` in 64 bits: `p` is at most 1000.
const MOST_SAVED: i128 = 1_000_000_000_000_000;

/// Takes each move that makes the augmented cost less, which is `q` times the cost and `p` times the penalised arc
/// costs (`lambda` is `p / q`).
#[derive(Drop)]
pub struct Guiding<'m, 'p, 's> {
    pub weights: Weights<'m, 'p>,
    pub lambda: Lambda,
    pub route_sums: &'s AllRouteSums,
    ghost sound: { IsLambda lambda },
}

impl<'m, 'p, 's> Accept for Guiding<'m, 'p, 's> {
    ghost model = { λ s. s.weights.closed.model.now };

    ghost stands_at = { λ s lists. AreAllRouteSums s.weights.closed.model.now (counted s.weights.penalties.now) lists
        s.route_sums.now };

    ghost takes = { λ s. makes_less s.weights.closed.model.now s.lambda (counted s.weights.penalties.now) };

    // Nothing asks it: the trait wants it, and a scan asks `accepts_change`.
    fn accepts(&self, routes: &Routes, mv: Move, difference: i64) -> bool {
        let mut change = Change::blank();
        Change::write(self.weights.closed.model, routes, mv, &mut change);
        self.accepts_change(routes, mv, &change, difference)
    }

    #[inline]
    fn accepts_change(&self, routes: &Routes, _mv: Move, change: &Change, difference: i64) -> bool {
        let of = WeighedRoutes {
            weights: self.weights,
            routes,
            route_sums: self.route_sums,
        };
        let weighed = WeighedChange { of, change };
        self.gains(difference, weighed.difference())
    }

    #[inline]
    fn open_below(&self, routes: &Routes, mv: Move) -> Option<i64> {
        // all moves of the run change the lists of the same vehicles
        let Some(touched) = Touched::found(self.weights.closed.model, routes, mv) else {
            return None;
        };
        let vehicles = routes.vehicles();
        // the numbers need not be those of a move
        if touched.first >= vehicles {
            return None;
        }
        if touched.second >= vehicles {
            return None;
        }
        let saved = self.saved_in_run(routes, mv, touched);
        self.enough_against(saved)
    }

    fn may_accept(&self, routes: &Routes, _mv: Move, change: &Change, least: i64) -> bool {
        let of = WeighedRoutes {
            weights: self.weights,
            routes,
            route_sums: self.route_sums,
        };
        let weighed = WeighedChange { of, change };
        let saved = weighed.saved_at_most();
        // what is saved at most is one subtraction for each part; only if that does not tell, the new pieces are walked
        if self.is_no_gain(least, saved) {
            return false;
        }
        self.gains(least, weighed.difference())
    }
}

impl<'m, 'p, 's> Guiding<'m, 'p, 's> {
    // What the moves of a run take of the penalised arc costs at most.
    #[inline]
    fn saved_in_run(&self, routes: &Routes, mv: Move, touched: Touched) -> i128
        requires stands { AreAllRouteSums self.now.weights.closed.model.now (counted self.now.weights.penalties.now)
            routes.now.lists self.now.route_sums.now }
        requires valid { IsTrue (is_valid self.now.weights.closed.model.now routes.now.lists) }
        requires first { touched.first < length routes.now.lists }
        requires second { touched.second < length routes.now.lists }
        requires found { AreFound self.now.weights.closed.model.now routes.now.lists mv (Some touched) }
        ensures low { pos 0 ≤ℤ result }
        ensures high { result ≤ℤ pos (2 ^ 90) }
        ensures most { SavesAtMost self.now.weights.closed.model.now (counted self.now.weights.penalties.now)
            routes.now.lists mv result }
    {
        let weighed = WeighedRoutes {
            weights: self.weights,
            routes,
            route_sums: self.route_sums,
        };
        weighed.saved_in_run(mv, touched)
    }

    // A difference in cost that is no gain if this much of the penalised arc costs is saved: `p` times this over `q`,
    // rounded up. `None` if it might not fit 64 bits. If nothing can be saved, as until an arc is penalised, nothing is
    // divided.
    #[inline]
    fn enough_against(&self, saved: i128) -> Option<i64>
        requires { IsIn (pos 0) (pos (2 ^ 90)) saved }
        ensures { IfSome result (λ enough. is_gain self.now.lambda enough (pos 0 -ℤ saved) ≡ false) }
    {
        if saved == 0 {
            return Some(0);
        }
        if saved > MOST_SAVED {
            return None;
        }
        let weighed = weighed(self.lambda.p, saved as i64);
        self.where_enough((weighed + (self.lambda.q - 1)) / self.lambda.q, saved)
    }

    // A difference in cost, if it is no gain with this much saved of the penalised arc costs. Of the difference that is
    // handed in it is so: it is asked again in place of a proof.
    #[inline]
    fn where_enough(&self, difference: i64, saved: i128) -> Option<i64>
        requires { IsIn (pos 0) (pos (2 ^ 90)) saved }
        ensures { IfSome result (λ enough. is_gain self.now.lambda enough (pos 0 -ℤ saved) ≡ false) }
    {
        if self.gains(difference, -saved) {
            return None;
        }
        Some(difference)
    }

    // Whether a difference in cost is no gain if at most this much of the penalised arc costs is saved. Until an arc is
    // penalised nothing can be saved, and the sign alone tells.
    #[inline]
    fn is_no_gain(&self, difference: i64, saved: i128) -> bool
        requires { IsIn (pos 0) (pos (2 ^ 90)) saved }
        ensures { IsTrue result → is_gain self.now.lambda difference (pos 0 -ℤ saved) ≡ false }
    {
        if saved == 0 {
            return difference >= 0;
        }
        !self.gains(difference, -saved)
    }

    // Whether this difference in cost, with this change of the penalised arc costs, makes the augmented cost less.
    #[inline]
    fn gains(&self, difference: i64, change: i128) -> bool
        requires change { unsigned_abs change ≤ 2 ^ 100 }
        ensures { result ≡ is_gain self.now.lambda difference change }
    {
        let costs = scaled(self.lambda.q, difference as i128);
        costs + scaled(self.lambda.p, change) < 0
    }
}

// A change times p or q.
#[inline]
fn scaled(factor: i64, change: i128) -> i128
    requires factor { unsigned_abs factor ≤ 1000 }
    requires change { unsigned_abs change ≤ 2 ^ 100 }
    ensures value { result ≡ factor *ℤ change }
    ensures bound { unsigned_abs result ≤ 1000 * 2 ^ 100 }
{
    factor as i128 * change
}

// What is saved, which is at most `MOST_SAVED`, times p.
#[inline]
fn weighed(factor: i64, saved: i64) -> i64
    requires factor { IsIn (pos 1) (pos 1000) factor }
    requires saved { IsIn (pos 0) (pos 1000000000000000) saved }
    ensures value { result ≡ factor *ℤ saved }
    ensures low { pos 0 ≤ℤ result }
    ensures high { result ≤ℤ pos 1000000000000000000 }
{
    factor * saved
}
