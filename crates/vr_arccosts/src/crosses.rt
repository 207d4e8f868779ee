//! Runs of fronts that change vehicles: the first of them that may add less than a bound to arc costs.

ghost use Rattle.std.specs.Prelude.{◌≡◌, ℕ, ◌+◌, ◌<◌, ◌≤◌, length};
ghost use Rattle.vr_model.specs.routes.Routes.{route};
ghost use Rattle.vr_model.specs.tables.Tables.{arc_cost};
ghost use Rattle.vr_model.specs.declared.neighbours.Move.TheVariants.{Cross};
ghost use Rattle.vr_arccosts.specs.Runs.{AddsNoLess};

use crate::committed::Committed;
use crate::fronts::{Fronts, first_front};
use crate::gaps::{Asked, Ends, Put, first_gap};

/// The run in which two fronts change vehicles: the nodes before place `a` of vehicle `v`, and those before place `b`
/// of vehicle `w`. It has the numbers `b` that are asked. None of them is 0: the empty front of `w` is asked alone
/// (`first_crossed` in `runs`).
#[derive(Clone, Copy)]
pub(crate) struct CrossRun<'a, 'm> {
    pub(crate) lists: Committed<'a, 'm>,
    pub(crate) v: u32,
    pub(crate) a: u32,
    pub(crate) w: u32,
    pub(crate) asked: Asked,
    pub ghost vehicles: { v < w },
    pub ghost other: { w < length lists.routes.now.lists },
    pub ghost gap: { a ≤ length (route lists.routes.now.lists v) },
    pub ghost some: { 1 ≤ asked.from },
    pub ghost places: { asked.end ≤ length (route lists.routes.now.lists w) + 1 },
}

impl<'a, 'm> CrossRun<'a, 'm> {
    /// Its first move that may add less than the bound, by the place after the other front, which has a visit.
    #[inline(always)]
    pub(crate) fn first(&self) -> u32
        ensures from { self.now.asked.from ≤ result }
        ensures within { result ≤ self.now.asked.end }
        ensures no_less { let run = self.now in (b : ℕ) → run.asked.from ≤ b → b < result → AddsNoLess
            run.lists.kept.now.model run.lists.routes.now.lists (Cross run.v run.a run.w b) run.asked.bound }
    {
        if self.lists.kept.have_same_costs(self.v, self.w) {
            return self.first_alike();
        }
        self.first_unlike()
    }

    // The same run, for vehicles that need not have the same costs: by going along the fronts (`first_front`).
    #[inline(always)]
    fn first_unlike(&self) -> u32
        ensures from { self.now.asked.from ≤ result }
        ensures within { result ≤ self.now.asked.end }
        ensures no_less { let run = self.now in (b : ℕ) → run.asked.from ≤ b → b < result → AddsNoLess
            run.lists.kept.now.model run.lists.routes.now.lists (Cross run.v run.a run.w b) run.asked.bound }
    {
        let line = self.lists.kept.line_of(self.lists.routes, self.v);
        let other = self.lists.kept.line_of(self.lists.routes, self.w);
        first_front(&line, self.a, &other, self.asked)
    }

    // The same run, for vehicles that have the same costs: the move that leaves the list of `w` empty is asked alone.
    #[inline(always)]
    fn first_alike(&self) -> u32
        requires costs { let run = self.now in (i j : ℕ) → arc_cost run.lists.kept.now.model run.w i j
            ≡ arc_cost run.lists.kept.now.model run.v i j }
        ensures from { self.now.asked.from ≤ result }
        ensures within { result ≤ self.now.asked.end }
        ensures no_less { let run = self.now in (b : ℕ) → run.asked.from ≤ b → b < result → AddsNoLess
            run.lists.kept.now.model run.lists.routes.now.lists (Cross run.v run.a run.w b) run.asked.bound }
    {
        let n = self.lists.routes.len(self.w);
        let asked = self.asked;
        if self.a > 0 || asked.end <= n || asked.from == asked.end {
            return self.first_left();
        }
        let left = CrossRun {
            lists: self.lists,
            v: self.v,
            a: self.a,
            w: self.w,
            asked: asked.ending(n),
        };
        let b = left.first_left();
        // With an empty front of `v`, the move at the end of `w` leaves `w` unused, which then costs nothing. It is
        // asked alone.
        if b < n || self.lists.crossed(self.v, 0, self.w, n) < asked.bound {
            return b;
        }
        asked.end
    }

    // The same run, if neither list is left empty. To cut the list of `w` at `b` costs what a chain put there would.
    // Its last node is the last of the front of `v`, which goes on to the rest of `w`. Its first is the stop at place
    // `a` of `v`, to which the front of `w` goes on.
    #[inline(always)]
    fn first_left(&self) -> u32
        requires costs { let run = self.now in (i j : ℕ) → arc_cost run.lists.kept.now.model run.w i j
            ≡ arc_cost run.lists.kept.now.model run.v i j }
        requires left { let run = self.now in run.a ≡ 0 → run.asked.from < run.asked.end
            → run.asked.end ≤ length (route run.lists.routes.now.lists run.w) }
        ensures from { self.now.asked.from ≤ result }
        ensures within { result ≤ self.now.asked.end }
        ensures no_less { let run = self.now in (b : ℕ) → run.asked.from ≤ b → b < result → AddsNoLess
            run.lists.kept.now.model run.lists.routes.now.lists (Cross run.v run.a run.w b) run.asked.bound }
    {
        let asked = self.asked;
        // else `w` has a visit: `base` looks at its first one
        if asked.from == asked.end {
            return asked.end;
        }
        let line = self.lists.kept.line_of(self.lists.routes, self.v);
        let other = self.lists.kept.line_of(self.lists.routes, self.w);
        let fronts = Fronts {
            line: &line,
            a: self.a,
            other: &other,
        };
        let base = fronts.base();
        let ends = Ends {
            first: line.node_at(self.a),
            last: fronts.last(),
        };
        let put = Put {
            line: &other,
            ends,
            base,
        };
        first_gap(&put, asked)
    }
}
