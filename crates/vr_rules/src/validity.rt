//! Which routes are open, and which are valid.

ghost use Rattle.std.specs.Prelude.{◌≡◌, ◌<◌, IfOk, IfSome, IsTrue, length};
ghost use Rattle.std.specs.List.{list_all};
ghost use Rattle.vr_model.specs.tables.Tables.{is_visit};
ghost use Rattle.vr_model.specs.routes.Routes.{is_distinct};
ghost use Rattle.vr_model.specs.routes.Rules.{is_open as is_open_of, is_route_open as is_route_open_of};
ghost use Rattle.vr_model.specs.routes.Rules.{is_valid as is_valid_of};
ghost use Rattle.vr_routes.specs.Tours.{are_routes_open as are_routes_open_of};
ghost use Rattle.vr_rules.specs.Placing.{AreBuilt};

use crate::complete::is_complete;
use crate::groups::{GroupRule, groups_pass};
use crate::marks::Marked;
use crate::routes_open::{Driving, is_route_open};
use vr_model::NoMemory;
use vr_plan::Lookups;
use vr_routes::Routes;

// Whether two lists have the same nodes in the same order.
fn is_same(one: &[u32], other: &[u32]) -> bool
    ensures { IsTrue result → one.now ≡ other.now }
{
    one == other
}

// Whether a vehicle may drive a list. One that it has in other open routes too is not asked again.
fn may_drive(
    lookups: &Lookups<'_>,
    v: u32,
    list: &[u32],
    others: Option<&Routes>,
    driving: &mut Driving,
) -> Result<bool, NoMemory>
    requires vehicle { v < length lookups.now.closed.model.now.vehicles }
    requires visits { IsTrue (list_all (is_visit lookups.now.closed.model.now) list.now) }
    requires distinct { IsTrue (is_distinct list.now) }
    requires others { IfSome others (λ routes. AreBuilt lookups.now.closed.model.now routes.now.lists) }
    ensures { IfOk result (λ answer. answer ≡ is_route_open_of lookups.now.closed.model.now v list.now) }
{
    if let Some(routes) = others {
        if is_same(routes.list(v), list) {
            return Ok(true);
        }
    }
    is_route_open(lookups, v, list, driving)
}

// Whether each vehicle may drive its list. No list is asked again that is the same in others, which are open.
fn are_routes_open(
    of: &Marked<'_, '_, '_, '_>,
    others: Option<&Routes>,
    driving: &mut Driving,
) -> Result<bool, NoMemory>
    requires { IfSome others (λ routes. AreBuilt of.now.lookups.now.closed.model.now routes.now.lists) }
    ensures { IfOk result (λ all. all
        ≡ are_routes_open_of of.now.lookups.now.closed.model.now of.now.routes.now.lists) }
{
    let routes = of.routes;
    for v in 0..routes.vehicles() {
        if !may_drive(of.lookups, v, routes.list(v), others, driving)? {
            return Ok(false);
        }
    }
    Ok(true)
}

// Whether routes of the model are open. No list is asked again that is the same in others, which are open: those that
// `Rules::open_beside` is handed. The groups are asked first, since that takes no walk.
pub(crate) fn is_open(
    of: &Marked<'_, '_, '_, '_>,
    others: Option<&Routes>,
    driving: &mut Driving,
) -> Result<bool, NoMemory>
    requires { IfSome others (λ routes. AreBuilt of.now.lookups.now.closed.model.now routes.now.lists) }
    ensures { IfOk result (λ answer. answer ≡ is_open_of of.now.lookups.now.closed.model.now of.now.routes.now.lists) }
{
    if !groups_pass(GroupRule::Fitting, of.lookups.closed, of.marks) {
        return Ok(false);
    }
    are_routes_open(of, others, driving)
}

// Whether open routes of the model are valid.
pub(crate) fn is_valid_where_open(of: &Marked<'_, '_, '_, '_>) -> bool
    requires { AreBuilt of.now.lookups.now.closed.model.now of.now.routes.now.lists }
    ensures { result ≡ is_valid_of of.now.lookups.now.closed.model.now of.now.routes.now.lists }
{
    is_complete(of.lookups, of.marks)
}

// Whether routes of the model are valid. Whether anything is missing is asked first, since that takes no walk.
pub(crate) fn is_valid(of: &Marked<'_, '_, '_, '_>, driving: &mut Driving) -> Result<bool, NoMemory>
    ensures { IfOk result (λ answer. answer ≡ is_valid_of of.now.lookups.now.closed.model.now of.now.routes.now.lists) }
{
    if !is_complete(of.lookups, of.marks) {
        return Ok(false);
    }
    is_open(of, None, driving)
}
