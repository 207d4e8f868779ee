//! Whether nothing is missing in lists that are open.

ghost use Rattle.std.specs.Prelude.{◌≡◌, ◌<◌, ◌||◌, Some, None, cond, not, IfOk, IfSome, length};
ghost use Rattle.std.specs.List.{list_all};
ghost use Rattle.vr_model.specs.tables.Tables.{is_visit, visits};
ghost use Rattle.vr_model.specs.routes.Rules.{is_grouped as is_grouped_of, is_valid};
ghost use Rattle.vr_rules.specs.Placing.{is_complete as is_complete_of, is_marked, lists_in, AreBuilt};

use crate::groups::{GroupRule, groups_pass};
use crate::marks::active_marks;
use std::alloc::Global;
use vr_model::{NoMemory, Seq};
use vr_plan::Lookups;
use vr_routes::Routes;

// Whether a node is no visit, or marked, or in a group.
fn is_not_missing(lookups: &Lookups<'_>, marks: &[bool], node: u32) -> bool
    requires { node < length marks.now }
    ensures { result ≡ (not (is_visit lookups.now.closed.model.now node)
        || (is_grouped_of lookups.now.closed.model.now node || is_marked marks.now node)) }
{
    marks[node as usize] || lookups.nodes().is_grouped(node) || !lookups.closed.model.is_visit(node)
}

// Whether each visit in no group is marked.
fn has_required(lookups: &Lookups<'_>, marks: &[bool]) -> bool
    requires { length marks.now ≡ lookups.now.closed.model.now.nodes }
    ensures { result ≡ list_all (λ node. is_grouped_of lookups.now.closed.model.now node || is_marked marks.now node)
        (visits lookups.now.closed.model.now) }
{
    for node in 0..lookups.closed.model.nodes {
        if !is_not_missing(lookups, marks, node) {
            return false;
        }
    }
    true
}

/// Whether each visit in no group is marked as active, and each group without a penalty has as many active nodes as it
/// may have. Open lists are valid exactly if this holds. Takes no memory.
pub(crate) fn is_complete(lookups: &Lookups<'_>, marks: &[bool]) -> bool
    requires { length marks.now ≡ lookups.now.closed.model.now.nodes }
    ensures { result ≡ is_complete_of lookups.now.closed.model.now marks.now }
{
    has_required(lookups, marks) && groups_pass(GroupRule::Filled, lookups.closed, marks)
}

/// Routes with these open lists of the model; `None` exactly if they are not valid, since something is missing in them.
/// `NoMemory` if it is out of memory. First solutions by cheapest arcs and by insertion end with it.
pub fn complete_routes(
    alloc: Global,
    lookups: &Lookups<'_>,
    lists: &[Seq<u32>],
) -> Result<Option<Routes>, NoMemory>
    requires { AreBuilt lookups.now.closed.model.now lists.now }
    ensures lists { IfOk result (λ answer.
        lists_in answer ≡ cond (is_valid lookups.now.closed.model.now lists.now) (Some lists.now) None) }
    ensures visits { IfOk result (λ answer.
        IfSome answer (λ routes. routes.visits ≡ visits lookups.now.closed.model.now)) }
{
    let model = lookups.closed.model;
    // they are lists of the model, so there are such routes
    let Some(routes) = Routes::from_lists(alloc, model, lists)? else {
        return Ok(None);
    };
    let marks = active_marks(alloc, model, &routes)?;
    if is_complete(lookups, &marks) {
        Ok(Some(routes))
    } else {
        Ok(None)
    }
}
