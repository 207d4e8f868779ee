//! What is asked of the marked nodes of each group.

ghost use Rattle.std.specs.Prelude.{◌≡◌, ◌<◌, All, length, count_by};
ghost use Rattle.std.specs.List.{list_all};
ghost use Rattle.vr_rules.specs.Placing.{fits_by, is_filled_by, is_marked};
ghost use Rattle.vr_rules.specs.GroupRules.{passes_by};

use vr_model::{Closed, Group};

// What is asked of a group.
#[derive(Clone, Copy)]
pub(crate) enum GroupRule {
    // It has no more marked nodes than it may have.
    Fitting,
    // It has a penalty, or as many marked nodes as it may have.
    Filled,
}

// How many nodes are marked.
pub(crate) fn count_marked(marks: &[bool], nodes: &[u32]) -> usize
    requires { All (λ node. node < length marks.now) nodes.now }
    ensures { result ≡ count_by (is_marked marks.now) nodes.now }
{
    let mut count = 0;
    for &node in nodes {
        if marks[node as usize] {
            count += 1;
        }
    }
    count
}

// Whether a group has a penalty, or as many marked nodes as it may have.
fn is_filled(marks: &[bool], group: &Group) -> bool
    requires { All (λ node. node < length marks.now) group.now.nodes }
    ensures { result ≡ is_filled_by marks.now group.now }
{
    match group.penalty {
        Some(_) => true,
        None => count_marked(marks, group.nodes.as_slice()) == group.max as usize,
    }
}

// Whether a group has no more marked nodes than it may have.
fn fits(marks: &[bool], group: &Group) -> bool
    requires { All (λ node. node < length marks.now) group.now.nodes }
    ensures { result ≡ fits_by marks.now group.now }
{
    count_marked(marks, group.nodes.as_slice()) <= group.max as usize
}

// Whether a group is as a rule asks.
fn passes(rule: GroupRule, marks: &[bool], group: &Group) -> bool
    requires { All (λ node. node < length marks.now) group.now.nodes }
    ensures { result ≡ passes_by rule marks.now group.now }
{
    match rule {
        GroupRule::Fitting => fits(marks, group),
        GroupRule::Filled => is_filled(marks, group),
    }
}

// Whether each group is as a rule asks.
pub(crate) fn groups_pass(rule: GroupRule, closed: Closed<'_>, marks: &[bool]) -> bool
    requires marks { length marks.now ≡ closed.model.now.nodes }
    ensures { result ≡ list_all (passes_by rule marks.now) closed.entry.model.now.groups }
{
    for k in 0..closed.model.groups.len() {
        if !passes(rule, marks, closed.model.groups.get(k)) {
            return false;
        }
    }
    true
}
