//! Printed solutions, routes and plans, each beside what the model says of it.

ghost use Rattle.std.proofs.Props.{props};
ghost use Rattle.std.specs.Prelude.{◌≡◌, ◌<◌, length};
ghost use Rattle.vr_check.specs.Kept.{FitsLine, IsRouteOf, IsSolutionOf};

use crate::asked_line::AskedLine;
use vr_model::{Closed, Seq};
use vr_printed::{Printed, PrintedPlan, PrintedRoute};

/// A printed solution, its routes, and the visits on each of them. The rules that come after those on lists are handed
/// them.
#[derive(Clone, Copy)]
pub(crate) struct Solution<'a> {
    pub(crate) closed: Closed<'a>,
    pub(crate) printed: &'a Printed,
    pub(crate) lists: &'a [Seq<u32>],
    pub(crate) routes: &'a [PrintedRoute],
    pub ghost sound: { IsSolutionOf closed.model.now printed.now lists.now routes.now } by { Prim.hlevel props },
}

impl<'a> Solution<'a> {
    ghost use Rattle.vr_check.specs.Handed.{parts_of_route, route_at};

    /// The route of a vehicle.
    pub(crate) fn route(&self, v: usize) -> VehicleRoute<'a>
        requires { v < length self.now.routes.now }
        ensures { parts_of_route result ≡ route_at self.now v }
    {
        let lists = self.lists;
        let routes = self.routes;
        VehicleRoute {
            closed: self.closed,
            v,
            list: lists[v].as_slice(),
            route: &routes[v],
        }
    }
}

/// The printed route of a vehicle, and the visits on it.
#[derive(Clone, Copy)]
pub(crate) struct VehicleRoute<'a> {
    pub(crate) closed: Closed<'a>,
    pub(crate) v: usize,
    pub(crate) list: &'a [u32],
    pub(crate) route: &'a PrintedRoute,
    pub ghost sound: { IsRouteOf closed.model.now v list.now route.now },
}

impl<'a> VehicleRoute<'a> {
    ghost use Rattle.vr_check.specs.Handed.{parts_of_plan, plan_parts_at};

    /// The plan in a dimension.
    pub(crate) fn plan(&self, d: usize) -> LinePlan<'a>
        requires { d < length self.now.route.now.plans }
        ensures { parts_of_plan result ≡ plan_parts_at self.now d }
    {
        let asked = AskedLine {
            model: self.closed.model,
            d,
            v: self.v,
            list: self.list,
        };
        LinePlan {
            asked,
            plan: self.route.plans.get(d),
        }
    }
}

/// A printed plan, and the line that it is of.
#[derive(Clone, Copy)]
pub(crate) struct LinePlan<'a> {
    pub(crate) asked: AskedLine<'a>,
    pub(crate) plan: &'a PrintedPlan,
    pub ghost fits: { FitsLine asked.model.now asked.d asked.v asked.list.now plan.now },
}
