//! The rules on which visits are active.

ghost use Rattle.std.specs.Prelude.{◌≡◌};
ghost use Rattle.vr_model.specs.moves.MoveTests as moves;
ghost use Rattle.vr_model.specs.routes.Rules as rules;
ghost use Rattle.vr_check.specs.Terms as terms;
ghost use Rattle.vr_check.specs.Visits as visits;
ghost use Rattle.vr_check.specs.Visits.{dropped_broken, group_broken, required_broken};

use crate::finding::Spot;
use crate::held::{holds, is_active};
use vr_model::{Closed, Group, Model, Seq};

// Whether a visit is in no list.
fn is_inactive(model: &Model, lists: &[Seq<u32>], node: u32) -> bool
    ensures { result ≡ moves.is_inactive model.now lists.now node }
{
    model.is_visit(node) && !is_active(lists, node)
}

// Whether a node is at a place of a list.
fn is_next(list: &[u32], k: usize, node: u32) -> bool
    ensures { result ≡ terms.is_next list.now k node }
{
    k < list.len() && list[k] == node
}

/// A spot if the list of dropped visits is not that of the inactive ones, ascending.
pub(crate) fn wrong_dropped(model: &Model, lists: &[Seq<u32>], dropped: &[u32]) -> Option<Spot>
    ensures { result ≡ dropped_broken model.now lists.now dropped.now }
{
    // how many inactive visits were met, each of which was at its place
    let mut k = 0;
    for node in 0..model.nodes {
        if is_inactive(model, lists, node) {
            if !is_next(dropped, k, node) {
                return Some(Spot::nowhere());
            }
            k += 1;
        }
    }
    if k == dropped.len() {
        None
    } else {
        Some(Spot::nowhere())
    }
}

// Whether a node is in a group.
fn is_grouped(model: &Model, node: u32) -> bool
    ensures { result ≡ rules.is_grouped model.now node }
{
    model
        .groups
        .as_slice()
        .iter()
        .any(|group| holds(group.nodes.as_slice(), node))
}

// Whether a node is an inactive visit that is in no group.
fn is_missing(model: &Model, lists: &[Seq<u32>], node: u32) -> bool
    ensures { result ≡ visits.is_missing model.now lists.now node }
{
    is_inactive(model, lists, node) && !is_grouped(model, node)
}

/// The least visit in no group that is inactive.
pub fn missing(model: &Model, lists: &[Seq<u32>]) -> Option<Spot>
    ensures { result ≡ required_broken model.now lists.now }
{
    for node in 0..model.nodes {
        if is_missing(model, lists, node) {
            return Some(Spot::of_none(node as usize));
        }
    }
    None
}

// How many nodes of a group are active; `costs` asks it too, for what is paid for those that are missing.
pub(crate) fn active_in(lists: &[Seq<u32>], group: &Group) -> usize
    ensures { result ≡ rules.active_in lists.now group.now }
{
    group
        .nodes
        .as_slice()
        .iter()
        .filter(|&&node| is_active(lists, node))
        .count()
}

// Whether no more nodes of a group are active than may be, and without a penalty exactly as many.
fn has_right_number(lists: &[Seq<u32>], group: &Group) -> bool
    ensures { result ≡ visits.has_right_number lists.now group.now }
{
    let active = active_in(lists, group);
    match group.penalty {
        None => active == group.max as usize,
        Some(_) => active <= group.max as usize,
    }
}

/// The first group of which too many nodes are active, or without a penalty not exactly as many as may be.
pub fn wrong_group(closed: Closed<'_>, lists: &[Seq<u32>]) -> Option<Spot>
    ensures { result ≡ group_broken closed.entry.model.now lists.now }
{
    let model = closed.model;
    for k in 0..model.groups.len() {
        if !has_right_number(lists, model.groups.get(k)) {
            return Some(Spot::of_none(k));
        }
    }
    None
}
