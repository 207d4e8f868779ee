//! What open routes cost.

ghost use Rattle.std.specs.Prelude.{◌≡◌, ◌+◌, IfOk, IsTrue, length};
ghost use Rattle.vr_model.specs.routes.Costs.{assigned, parts_at};
ghost use Rattle.vr_model.specs.routes.Rules.{is_open};
ghost use Rattle.vr_rules.specs.Parts.{AreTimed};
ghost use Rattle.vr_rules.specs.Totals.{AreInRange};

use crate::costs::{arcs_of_routes, fixed_of_routes};
use crate::marks::Marked;
use crate::penalties::penalty_of_groups;
use crate::sums::{RoutesIn, sums_of};
use vr_model::{NoMemory, Parts};
use vr_plan::{Timer, global_cost};

// What the chosen schedules of routes cost in all dimensions, or in the first ones on the way there. They cost by
// global spans, by soft upper bounds, and by the spans of vehicles.
#[derive(Clone, Copy)]
struct Timed {
    global: i64,
    soft: i64,
    span: i64,
}

// The costs of the dimensions before that of `of`, with those of this one added.
fn with_dimension(
    of: &RoutesIn<'_, '_, '_>,
    timed: Timed,
    timer: &mut Timer,
) -> Result<Timed, NoMemory>
    requires { AreTimed of.now.lookups.now.closed.model.now of.now.routes.now.lists of.now.d timed }
    ensures { IfOk result
        (AreTimed of.now.lookups.now.closed.model.now of.now.routes.now.lists (of.now.d + 1)) }
{
    let sums = sums_of(of, timer)?;
    let lookups = of.lookups;
    let dimension = lookups.closed.model.dimensions.get(of.d as usize);
    Ok(Timed {
        global: timed.global + global_cost(dimension, sums.extent),
        soft: timed.soft + sums.soft,
        span: timed.span + sums.span,
    })
}

// What the chosen schedules of routes cost.
fn timed_of(of: &Marked<'_, '_, '_, '_>, timer: &mut Timer) -> Result<Timed, NoMemory>
    ensures { IfOk result (AreTimed of.now.lookups.now.closed.model.now of.now.routes.now.lists
        (length of.now.lookups.now.closed.model.now.dimensions)) }
{
    let mut timed = Timed {
        global: 0,
        soft: 0,
        span: 0,
    };
    let lookups = of.lookups;
    for d in 0..lookups.closed.model.dimensions.len() {
        let routes = RoutesIn {
            lookups,
            routes: of.routes,
            d: d as u32,
        };
        timed = with_dimension(&routes, timed, timer)?;
    }
    Ok(timed)
}

// What open routes cost at their chosen schedules.
pub(crate) fn parts_of(of: &Marked<'_, '_, '_, '_>, timer: &mut Timer) -> Result<Parts, NoMemory>
    requires { IsTrue (is_open of.now.lookups.now.closed.model.now of.now.routes.now.lists) }
    ensures parts { IfOk result (λ parts. parts ≡ parts_at of.now.lookups.now.closed.model.now
        (assigned of.now.lookups.now.closed.model.now of.now.routes.now.lists)) }
    ensures range { IfOk result AreInRange }
{
    let (closed, routes) = (of.lookups.closed, of.routes);
    let penalty = penalty_of_groups(closed, of.marks);
    let timed = timed_of(of, timer)?;
    Ok(Parts {
        arcs: arcs_of_routes(closed, routes),
        fixed: fixed_of_routes(closed, routes),
        global: timed.global,
        penalty,
        soft: timed.soft,
        span: timed.span,
    })
}
