//! What the chosen schedules of routes cost in one dimension, added up over the vehicles.

ghost use Rattle.std.specs.Prelude.{◌≡◌, ◌<◌, ◌+◌, ◌*◌, ◌+ℤ◌, ◌*ℤ◌, ◌-ℤ◌, ◌≤ℤ◌};
ghost use Rattle.std.specs.Prelude.{pos, All, IfOk, IfSome, IsSome, IsTrue, length};
ghost use Rattle.std.specs.List.{list_all};
ghost use Rattle.vr_model.specs.tables.Numbers.{number_at};
ghost use Rattle.vr_model.specs.tables.Tables.{dimension_at, is_visit};
ghost use Rattle.vr_model.specs.tables.WellFormed.{IsIn};
ghost use Rattle.vr_model.specs.routes.Routes.{are_lists};
ghost use Rattle.vr_plan.specs.Bounds.{cumul_cost, IsAround};
ghost use Rattle.vr_plan.specs.Extents.{IsWider};
ghost use Rattle.vr_plan.specs.Timings.{IsTimingOf};
ghost use Rattle.vr_rules.specs.Sums.{may_pay, AreVehicleSums};

use vr_model::{Dimension, NoMemory};
use vr_plan::{Extent, Lookups, Timer, Timing, may_pay_alone, span_cost, timing_of, wider};
use vr_routes::Routes;

// What soft upper bounds and spans cost, and the extent of the routes that may pay, `None` if none does. If the
// coefficient of the global span is not 0, the extent is that of all used routes. If it is 0, the extent costs nothing.
#[derive(Clone, Copy)]
pub(crate) struct Sums {
    pub(crate) soft: i64,
    pub(crate) span: i64,
    pub(crate) extent: Option<Extent>,
}

/// Routes of a model, in one dimension.
#[derive(Clone, Copy)]
pub(crate) struct RoutesIn<'l, 'm, 'r> {
    pub(crate) lookups: &'l Lookups<'m>,
    pub(crate) routes: &'r Routes,
    pub(crate) d: u32,
    ghost dimension: { d < length lookups.now.closed.model.now.dimensions },
    ghost lists: { IsTrue (are_lists lookups.now.closed.model.now routes.now.lists) },
}

// Whether schedules of a list may cost anything: the global span has a coefficient, or they may cost something by
// themselves. If they may not, no schedule is looked for.
fn may_pay(of: &RoutesIn<'_, '_, '_>, v: u32, list: &[u32]) -> bool
    requires vehicle { v < length of.now.lookups.now.closed.model.now.vehicles }
    requires visits { IsTrue (list_all (is_visit of.now.lookups.now.closed.model.now) list.now) }
    ensures { result ≡ may_pay (dimension_at of.now.lookups.now.closed.model.now of.now.d) v list.now }
{
    let (lookups, d) = (of.lookups, of.d);
    let model = lookups.closed.model;
    if model.dimensions.get(d as usize).global_span_cost != 0 {
        return true;
    }
    may_pay_alone(model, lookups.table(d), d, v, list)
}

// The sums with one used vehicle more, from what its schedule comes to.
fn with_timing(dimension: &Dimension, v: u32, timing: Timing, sums: Sums) -> Sums
    requires vehicle { v < length dimension.now.span_costs }
    requires coefficients { All (IsIn (pos 0) (pos 10000)) dimension.now.span_costs }
    requires timing { IsTimingOf 1002 timing }
    requires not_negative { pos 0 ≤ℤ sums.soft }
    requires bound { sums.soft ≤ℤ pos (cumul_cost * 2000) }
    requires span { IsAround (cumul_cost * 100) sums.span }
    ensures soft { result.soft ≡ (sums.soft +ℤ timing.soft) }
    ensures span { result.span ≡ (sums.span +ℤ number_at dimension.now.span_costs v *ℤ (timing.last -ℤ timing.start)) }
    ensures range { IsAround cumul_cost (number_at dimension.now.span_costs v *ℤ (timing.last -ℤ timing.start)) }
    ensures extent { IfSome result.extent (IsWider sums.extent timing) }
    ensures some { IsSome result.extent }
{
    Sums {
        soft: sums.soft + timing.soft,
        span: sums.span + span_cost(dimension, v, timing),
        extent: Some(wider(sums.extent, timing)),
    }
}

// The sums with one vehicle more.
fn with_vehicle(
    of: &RoutesIn<'_, '_, '_>,
    v: u32,
    sums: Sums,
    timer: &mut Timer,
) -> Result<Sums, NoMemory>
    requires vehicle { v < length of.now.routes.now.lists }
    requires sums { AreVehicleSums of.now.lookups.now.closed.model.now of.now.routes.now.lists of.now.d v sums }
    ensures { IfOk result (AreVehicleSums of.now.lookups.now.closed.model.now of.now.routes.now.lists of.now.d
        (v + 1)) }
{
    let list = of.routes.list(v);
    if list.is_empty() {
        return Ok(sums);
    }
    if !may_pay(of, v, list) {
        return Ok(sums);
    }
    let (lookups, d) = (of.lookups, of.d);
    let model = lookups.closed.model;
    let timing = timing_of(model, lookups.table(d), d, v, list, timer)?;
    let dimension = model.dimensions.get(d as usize);
    Ok(with_timing(dimension, v, timing, sums))
}

// What the chosen schedules of routes come to in a dimension.
pub(crate) fn sums_of(of: &RoutesIn<'_, '_, '_>, timer: &mut Timer) -> Result<Sums, NoMemory>
    ensures { IfOk result (AreVehicleSums of.now.lookups.now.closed.model.now of.now.routes.now.lists of.now.d
        (length of.now.routes.now.lists)) }
{
    let mut sums = Sums {
        soft: 0,
        span: 0,
        extent: None,
    };
    for v in 0..of.routes.vehicles() {
        sums = with_vehicle(of, v, sums, timer)?;
    }
    Ok(sums)
}
