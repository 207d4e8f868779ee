//! Runs of visits that take the place of a node: the first of them that may add less than a bound to arc costs.

ghost use Rattle.std.specs.Prelude.{◌≡◌, ℕ, ◌<◌, ◌≤◌, ◌≤ℤ◌, length, slice_index, All};
ghost use Rattle.std.specs.List.Sorted.{IsStrictlyIncreasing};
ghost use Rattle.vr_model.specs.declared.neighbours.Move.TheVariants.{SwapActive};
ghost use Rattle.vr_arccosts.specs.Runs.{swap_added, AddsNoLess};

use crate::committed::Committed;
use crate::gaps::{Asked, swapped};
use crate::lines::Line;

impl<'a, 'm> Committed<'a, 'm> {
    // The run of an inactive visit that takes the place of a node, by the visit. If there is no such node, the answer
    // is the first number that is asked: it says nothing of the run.
    #[inline(never)]
    pub(crate) fn first_swapped_in(self, v: u32, a: u32, asked: Asked) -> u32
        ensures from { asked.from ≤ result }
        ensures within { result ≤ asked.end }
        ensures no_less { (u : ℕ) → asked.from ≤ u → u < result
            → AddsNoLess self.entry.kept.now.model self.entry.routes.now.lists (SwapActive v a u) asked.bound }
    {
        if v >= self.routes.vehicles() || a >= self.routes.len(v) {
            return asked.from;
        }
        let line = self.kept.line_of(self.routes, v);
        let visits = self.routes.inactive();
        first_newcomer(&line, a, visits, asked)
    }
}

// The first of ascending visits with which the arcs cost less than the bound more if it is put at place `a`. Only those
// in the range that is asked count. The answer is the end of the range if there is none.
#[inline(always)]
fn first_newcomer(line: &Line, a: u32, visits: &[u32], asked: Asked) -> u32
    requires place { a < length line.now.list.now }
    requires nodes { All (λ node. node < line.now.costs.model.now.nodes) visits.now }
    requires ascending { IsStrictlyIncreasing visits.now }
    ensures from { asked.from ≤ result }
    ensures within { result ≤ asked.end }
    ensures no_less { (k : ℕ) → k < length visits.now → asked.from ≤ slice_index visits.now k
        → slice_index visits.now k < result → asked.bound
        ≤ℤ swap_added line.now.costs.model.now line.now.costs.vehicle line.now.list.now a (slice_index visits.now k) }
{
    let start = place_from(visits, asked.from);
    for k in start..visits.len() {
        let u = visits[k];
        if u >= asked.end {
            return asked.end;
        }
        if swapped(line, a, u) < asked.bound {
            return u;
        }
    }
    asked.end
}

// The place of the first of ascending visits that is not below a number.
#[inline]
fn place_from(visits: &[u32], from: u32) -> usize
    requires ascending { IsStrictlyIncreasing visits.now }
    ensures within { result ≤ length visits.now }
    ensures below { (k : ℕ) → k < result → slice_index visits.now k < from }
    ensures above { (k : ℕ) → result ≤ k → k < length visits.now → from ≤ slice_index visits.now k }
{
    visits.partition_point(|&x| x < from)
}
