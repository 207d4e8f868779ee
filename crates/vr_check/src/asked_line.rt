//! A line of which each number is looked up when it is asked for.

ghost use Rattle.std.proofs.Props.{props};
ghost use Rattle.std.specs.Prelude.{◌≡◌, ◌<◌, ◌≤◌, ◌+◌, ◌^◌, ◌≤ℤ◌, neg_ℤ, pos, not, length, slice_index_or};
ghost use Rattle.std.specs.List.{list_all};
ghost use Rattle.std.specs.Option.{option_copied};
ghost use Rattle.vr_model.specs.tables.Numbers.{number_at, within};
ghost use Rattle.vr_model.specs.tables.Tables.{no_dimension};
ghost use Rattle.vr_model.specs.schedules.Lines.{in_window, row_allows, stop_allows};
ghost use Rattle.vr_model.specs.schedules.Schedules as schedules;
ghost use Rattle.vr_model.specs.schedules.Schedules.{arc_at};
ghost use Rattle.vr_model.specs.tables.WellFormed.{IsStopRow, WherePresent};
ghost use Rattle.vr_model.specs.tables.WellFormedOnce.{IsWellFormed-prop};
ghost use Rattle.vr_check.specs.Kept.{IsLineOfModel};

use vr_model::{BreakRow, Dimension, Interval, Model, StopRow};

/// The line of vehicle `v` with a list in dimension `d`: what to look up, and no number of it. Stop 0 is the start of
/// the vehicle. After it come the visits of the list, and then the end. Arc `k` leads from stop `k` to the next.
/// `vr_steps` has the line that schedules are built of, of which the check asks nothing.
#[derive(Clone, Copy)]
pub(crate) struct AskedLine<'a> {
    pub(crate) model: &'a Model,
    pub(crate) d: usize,
    pub(crate) v: usize,
    pub(crate) list: &'a [u32],
    pub ghost known: { IsLineOfModel model.now d v list.now } by { Prim.hlevel (props, IsWellFormed-prop) },
}

// Whether a number lies in an interval.
fn is_within(interval: Interval, x: i64) -> bool
    ensures { result ≡ within interval.lo interval.hi x }
{
    interval.lo <= x && x <= interval.hi
}

// Whether a number lies in a window, if there is one.
fn is_in_window(window: Option<Interval>, x: i64) -> bool
    ensures { result ≡ in_window window x }
{
    match window {
        None => true,
        Some(window) => is_within(window, x),
    }
}

// Whether a number lies in none of some intervals.
fn is_outside(intervals: &[Interval], x: i64) -> bool
    ensures { result ≡ list_all (λ interval. not (within interval.lo interval.hi x)) intervals.now }
{
    intervals.iter().all(|&interval| !is_within(interval, x))
}

// Whether the row of a stop lets a number be its cumul.
fn row_lets(row: Option<&StopRow>, x: i64) -> bool
    ensures { result ≡ row_allows (option_copied row.entry) x }
{
    match row {
        None => true,
        Some(row) => is_in_window(row.window, x) && is_outside(row.forbidden.as_slice(), x),
    }
}

// Whether a stop of this capacity and row allows a cumul.
fn stop_lets(capacity: i64, row: Option<&StopRow>, x: i64) -> bool
    ensures { result ≡ stop_allows capacity (option_copied row.entry) x }
{
    0 <= x && x <= capacity && row_lets(row, x)
}

// The visit time of a node.
fn visit_of(dimension: &Dimension, node: u32) -> i64
    requires { node < length dimension.now.visit }
    ensures { result ≡ number_at dimension.now.visit node }
{
    *dimension.visit.get(node as usize)
}

// The capacity of a vehicle.
fn capacity_of(dimension: &Dimension, v: usize) -> i64
    requires { v < length dimension.now.capacities }
    ensures { result ≡ number_at dimension.now.capacities v }
{
    *dimension.capacities.get(v)
}

impl<'a> AskedLine<'a> {
    ghost use Rattle.vr_check.specs.Asked as asked_lines;
    ghost use Rattle.vr_check.specs.Asked.{arc_count, asked_line, row_at_stop};

    // The number of the vehicle.
    fn vehicle(&self) -> u32
        ensures { result ≡ self.now.v }
    {
        self.v as u32
    }

    // The dimension.
    fn dimension(&self) -> &'a Dimension
        ensures { result.now ≡ slice_index_or self.now.model.now.dimensions self.now.d no_dimension }
    {
        self.model.dimensions.get(self.d)
    }

    /// The row of a stop: what the model asks of its cumul beside the capacity and a fixed start. `None` if it has
    /// none.
    pub(crate) fn row(&self, k: usize) -> Option<&'a StopRow>
        requires stop { k ≤ arc_count self.now }
        ensures value { option_copied result ≡ row_at_stop self.now k }
        ensures valid { WherePresent IsStopRow (option_copied result) }
    {
        let dimension = self.dimension();
        if k == 0 {
            StopRow::of_key(&dimension.starts, self.vehicle())
        } else if k <= self.list.len() {
            StopRow::of_key(&dimension.nodes, self.list[k - 1])
        } else {
            StopRow::of_key(&dimension.ends, self.vehicle())
        }
    }

    // Whether the capacity and the row of a stop allow a cumul.
    fn is_let(&self, k: usize, x: i64) -> bool
        requires stop { k ≤ arc_count self.now }
        ensures { result ≡ asked_lines.is_let self.now k x }
    {
        let capacity = capacity_of(self.dimension(), self.v);
        stop_lets(capacity, self.row(k), x)
    }

    // Whether a cumul is 0 if it must be: at the start, in a dimension that fixes it.
    fn keeps_fixed_start(&self, k: usize, x: i64) -> bool
        ensures { result ≡ asked_lines.keeps_fixed_start self.now k x }
    {
        k != 0 || !self.dimension().fix_start || x == 0
    }

    /// Whether a stop allows a cumul.
    pub(crate) fn allows(&self, k: usize, x: i64) -> bool
        requires stop { k ≤ arc_count self.now }
        ensures { result ≡ schedules.allows (asked_line self.now) k x }
    {
        self.is_let(k, x) && self.keeps_fixed_start(k, x)
    }

    /// How many arcs there are.
    pub(crate) fn arcs(&self) -> usize
        ensures count { result ≡ arc_count self.now }
        ensures line { result ≡ length (asked_line self.now).arcs }
    {
        self.list.len() + 1
    }

    // The node at a stop.
    fn node(&self, k: usize) -> u32
        requires stop { k ≤ arc_count self.now }
        ensures value { result ≡ asked_lines.stop_node self.now k }
        ensures within { result < self.now.model.now.nodes }
    {
        if k == 0 {
            self.model.vehicles.get(self.v).start
        } else if k <= self.list.len() {
            self.list[k - 1]
        } else {
            self.model.vehicles.get(self.v).end
        }
    }

    /// The transit of an arc.
    pub(crate) fn transit(&self, k: usize) -> i64
        requires arc { k < arc_count self.now }
        ensures value { result ≡ (arc_at (asked_line self.now) k).transit }
        ensures least { neg_ℤ (pos (2 ^ 31)) ≤ℤ result }
        ensures greatest { result ≤ℤ pos (2 ^ 31) }
    {
        let d = self.d as u32;
        self.model
            .transit(d, self.vehicle(), self.node(k), self.node(k + 1))
    }

    /// The visit time of the node from which an arc leads.
    pub(crate) fn visit(&self, k: usize) -> i64
        requires arc { k < arc_count self.now }
        ensures value { result ≡ (arc_at (asked_line self.now) k).visit }
    {
        visit_of(self.dimension(), self.node(k))
    }

    /// The breaks, in order.
    pub(crate) fn breaks(&self) -> &'a [BreakRow]
        ensures { result.now ≡ (asked_line self.now).breaks }
    {
        self.dimension().breaks_of(self.vehicle())
    }

    /// The greatest slack.
    pub(crate) fn slack_max(&self) -> i64
        ensures { result ≡ (asked_line self.now).slack_max }
    {
        self.dimension().slack_max
    }
}
