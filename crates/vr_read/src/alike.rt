//! Whether vehicles are alike, which is asked if the first solution is to be built by savings.

ghost use Rattle.std.specs.Prelude.{◌≡◌, ◌<◌, Bool, length, option_map};
ghost use Rattle.std.specs.List.{All, list_all};
ghost use Rattle.vr_model.specs.tables.ModelRules as model_rules;
ghost use Rattle.vr_model.specs.tables.Numbers.{are_same_by};
ghost use Rattle.vr_read.specs.Alike as alike;
ghost use Rattle.vr_read.specs.ModelParts.{HasVehicle};

use crate::tabled::Tabled;
use vr_model::{BreakRow, Dimension, Interval, Policy, ScheduleRule, Soft, StopRow};

// Values that are the same or not.
trait Alike {
    ghost same: { Self → Self → Bool };

    // Whether two values are the same.
    fn is_same(&self, other: &Self) -> bool
        ensures { result ≡ same self.now other.now };
}

// What `==` says, in the two comparisons of its definition.
impl Alike for i64 {
    ghost use Rattle.vr_model.specs.tables.Numbers.{is_same_number};

    ghost same = { is_same_number };

    fn is_same(&self, other: &i64) -> bool {
        *self <= *other && *other <= *self
    }
}

impl Alike for Interval {
    ghost use Rattle.vr_model.specs.tables.ModelRules.{is_same_interval};

    ghost same = { is_same_interval };

    fn is_same(&self, other: &Interval) -> bool {
        self.lo.is_same(&other.lo) && self.hi.is_same(&other.hi)
    }
}

impl Alike for Soft {
    ghost use Rattle.vr_model.specs.tables.ModelRules.{is_same_soft};

    ghost same = { is_same_soft };

    fn is_same(&self, other: &Soft) -> bool {
        self.bound.is_same(&other.bound) && self.coefficient.is_same(&other.coefficient)
    }
}

impl Alike for BreakRow {
    ghost use Rattle.vr_model.specs.tables.ModelRules.{is_same_break};

    ghost same = { is_same_break };

    fn is_same(&self, other: &BreakRow) -> bool {
        self.from.is_same(&other.from)
            && self.to.is_same(&other.to)
            && self.duration.is_same(&other.duration)
    }
}

// Stop rows are the same whatever their keys, which are the vehicles that are compared.
impl Alike for StopRow {
    ghost use Rattle.vr_model.specs.tables.ModelRules.{is_same_row};

    ghost same = { is_same_row };

    fn is_same(&self, other: &StopRow) -> bool {
        is_same_option(self.window.as_ref(), other.window.as_ref())
            && are_same(self.forbidden.as_slice(), other.forbidden.as_slice())
            && is_same_option(self.soft.as_ref(), other.soft.as_ref())
    }
}

// Whether two values that may be absent are both absent, or both present and the same.
fn is_same_option<T: Alike>(one: Option<&T>, other: Option<&T>) -> bool
    ensures { result
        ≡ model_rules.is_same_option T.same (option_map (λ x. x.now) one.entry) (option_map (λ x. x.now) other.entry) }
{
    match (one, other) {
        (None, None) => true,
        (Some(x), Some(y)) => x.is_same(y),
        _ => false,
    }
}

// Whether two lists have the same values in the same order.
fn are_same<T: Alike>(one: &[T], other: &[T]) -> bool
    ensures { result ≡ are_same_by T.same one.now other.now }
{
    if one.len() != other.len() {
        return false;
    }
    for k in 0..one.len() {
        if !one[k].is_same(&other[k]) {
            return false;
        }
    }
    true
}

// Whether two policies are the same.
fn is_same_policy(one: Policy, other: Policy) -> bool
    ensures { result ≡ model_rules.is_same_policy one other }
{
    match (one, other) {
        (Policy::Any, Policy::Any) | (Policy::Lifo, Policy::Lifo) | (Policy::Fifo, Policy::Fifo) =>
            true,
        _ => false,
    }
}

// Whether two rules of schedules are the same.
fn is_same_schedule_rule(one: ScheduleRule, other: ScheduleRule) -> bool
    ensures { result ≡ model_rules.is_same_schedule_rule one other }
{
    match (one, other) {
        (ScheduleRule::Earliest, ScheduleRule::Earliest)
        | (ScheduleRule::Tight, ScheduleRule::Tight) => true,
        _ => false,
    }
}

// Whether two vehicles are alike in a dimension. They have the same capacity, number of an evaluator, span coefficient,
// start row, end row and breaks. Two evaluators that say the same are not the same.
fn are_alike_in(dimension: &Dimension, v: u32, w: u32) -> bool
    requires one { HasVehicle v dimension.now }
    requires other { HasVehicle w dimension.now }
    ensures { result ≡ model_rules.are_alike_in dimension.now v w }
{
    let capacities = &dimension.capacities;
    let evaluators = &dimension.vehicle_evaluators;
    let span_costs = &dimension.span_costs;
    let starts = &dimension.starts;
    let ends = &dimension.ends;
    let (one, other) = (v as usize, w as usize);
    capacities.get(one).is_same(capacities.get(other))
        && *evaluators.get(one) == *evaluators.get(other)
        && span_costs.get(one).is_same(span_costs.get(other))
        && is_same_option(StopRow::of_key(starts, v), StopRow::of_key(starts, w))
        && is_same_option(StopRow::of_key(ends, v), StopRow::of_key(ends, w))
        && are_same(dimension.breaks_of(v), dimension.breaks_of(w))
}

// Whether two vehicles are alike in each of some dimensions.
fn are_alike_in_all(dimensions: &[Dimension], v: u32, w: u32) -> bool
    requires one { All (HasVehicle v) dimensions.now }
    requires other { All (HasVehicle w) dimensions.now }
    ensures { result ≡ alike.are_alike_in_all dimensions.now v w }
{
    for dimension in dimensions {
        if !are_alike_in(dimension, v, w) {
            return false;
        }
    }
    true
}

// Whether two vehicles are alike. They have the same start, end, number of a cost matrix, fixed cost, policy and rule
// of schedules, and are alike in each dimension.
fn are_alike(of: Tabled<'_>, v: u32, w: u32) -> bool
    requires one { v < length of.model.now.vehicles }
    requires other { w < length of.model.now.vehicles }
    ensures { result ≡ model_rules.are_alike of.entry.model.now v w }
{
    let model = of.model;
    let one = model.vehicles.get(v as usize);
    let other = model.vehicles.get(w as usize);
    one.start == other.start
        && one.end == other.end
        && one.costs == other.costs
        && one.fixed.is_same(&other.fixed)
        && is_same_policy(one.policy, other.policy)
        && is_same_schedule_rule(one.schedule, other.schedule)
        && are_alike_in_all(model.dimensions.as_slice(), v, w)
}

// Whether some vehicle is not like vehicle `v`.
fn differs_from_some(of: Tabled<'_>, v: u32) -> bool
    requires { v < length of.model.now.vehicles }
    ensures { result ≡ alike.differs_from_some of.entry.model.now v }
{
    for w in 0..of.model.vehicles.len() as u32 {
        if !are_alike(of, v, w) {
            return true;
        }
    }
    false
}

/// Whether some two vehicles are not alike.
pub(crate) fn vehicles_differ(of: Tabled<'_>) -> bool
    ensures { result ≡ model_rules.vehicles_differ of.entry.model.now }
{
    for v in 0..of.model.vehicles.len() as u32 {
        if differs_from_some(of, v) {
            return true;
        }
    }
    false
}
