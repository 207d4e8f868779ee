//! What open routes lack to be valid.

ghost use Rattle.std.specs.Prelude.{◌≡◌, ◌≤◌, ◌*◌, ◌&&◌, ◌==◌, cond, length, not};
ghost use Rattle.vr_model.specs.first.Items.{first_node};
ghost use Rattle.vr_model.specs.routes.Routes.{is_active};
ghost use Rattle.vr_model.specs.routes.Rules.{active_in};
ghost use Rattle.vr_rules.specs.Placing.{item_nodes, AreCandidates};
ghost use Rattle.vr_ruin.specs.Lacking.{lack, missing_items as missing_items_of, missing_nodes as missing_nodes_of};
ghost use Rattle.vr_ruin.specs.Lacking.{needed_by};

use vr_model::{Closed, Group};
use vr_routes::Routes;
use vr_rules::Candidate;

// How many nodes of a group are active.
fn active_nodes(routes: &Routes, group: &Group) -> u32
    requires { length group.now.nodes ≤ 1000 }
    ensures value { result ≡ active_in routes.now.lists group.now }
    ensures few { result ≤ 1000 }
{
    let mut active = 0;
    for &node in group.nodes.as_slice() {
        if routes.is_active(node) {
            active += 1;
        }
    }
    active
}

// How many more nodes of a group must be active.
fn needed_nodes(routes: &Routes, group: &Group) -> u32
    requires nodes { length group.now.nodes ≤ 1000 }
    requires max { group.now.max ≤ 1000 }
    ensures value { result ≡ needed_by group.now.penalty group.now.max (active_in routes.now.lists group.now) }
    ensures few { result ≤ 1000 }
{
    match group.penalty {
        Some(_) => 0,
        None => group.max.saturating_sub(active_nodes(routes, group)),
    }
}

// How many more nodes must be active, over all groups.
fn missing_nodes(closed: Closed<'_>, routes: &Routes) -> u32
    ensures value { result ≡ missing_nodes_of closed.entry.model.now routes.now.lists }
    ensures few { result ≤ 1000 * 1000 }
{
    let mut missing = 0;
    for k in 0..closed.model.groups.len() {
        missing += needed_nodes(routes, closed.model.groups.get(k));
    }
    missing
}

// 1 of an item that must be placed and is in no list, else 0.
fn missing_of_item(candidate: Candidate, routes: &Routes) -> u32
    ensures value { result ≡ cond ((candidate.class == 0)
        && not (is_active routes.now.lists (first_node (item_nodes candidate.item)))) 1 0 }
    ensures few { result ≤ 1 }
{
    if candidate.class == 0 && !routes.is_active(candidate.item.number()) {
        1
    } else {
        0
    }
}

// How many items that must be placed are in no list.
fn missing_items(closed: Closed<'_>, candidates: &[Candidate], routes: &Routes) -> u32
    requires candidates { AreCandidates closed.model.now candidates.now }
    requires few { length candidates.now ≤ 1000 }
    ensures value { result ≡ missing_items_of closed.entry.model.now routes.now.lists }
    ensures few { result ≤ 1000 }
{
    let _model = closed.model;
    let mut missing = 0;
    for &candidate in candidates {
        missing += missing_of_item(candidate, routes);
    }
    missing
}

/// What open routes lack: the items that must be placed and are in no list, and the nodes that groups without a penalty
/// still need. They are valid exactly if it is 0.
pub(crate) fn lack_of(closed: Closed<'_>, candidates: &[Candidate], routes: &Routes) -> u32
    requires candidates { AreCandidates closed.model.now candidates.now }
    requires few { length candidates.now ≤ 1000 }
    ensures value { result ≡ lack closed.entry.model.now routes.now.lists }
{
    missing_items(closed, candidates, routes) + missing_nodes(closed, routes)
}
