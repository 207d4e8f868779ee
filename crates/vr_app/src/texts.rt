//! The trees of statuses, refusals, findings and summaries. `spans` has its own.

ghost use Rattle.std.specs.Prelude.{◌≡◌, IfOk, OnOk};
ghost use Rattle.serde_json.specs.Data.{no_members, object, put, string};
ghost use Rattle.serde_json.specs.View.{view};
ghost use Rattle.vr_json.specs.Trees.{members_put, count};
ghost use Rattle.vr_print.specs.Numbers.{whole};
ghost use Rattle.vr_app.specs.Texts as texts;

use serde_json::{Value, json};
use std::alloc::Global;
use vr_json::{Fault, Tree, text_value};
use vr_model::NoMemory;

/// The tree of a status alone.
#[tactic(auto, unfolding(crate::specs::Texts::status_tree))]
pub(crate) fn status_tree(alloc: Global, status: &str) -> Result<Value, NoMemory>
    ensures { IfOk result (λ v. view v ≡ texts.status_tree status.now) }
{
    Ok(json!(in alloc; {"status": status})?)
}

// Puts a text.
fn put_text(alloc: Global, tree: &mut Tree, key: &str, text: &str) -> Result<(), NoMemory>
    ensures { OnOk result (members_put tree.new ≡ put key.now (string text.now) (members_put tree.old)) }
{
    tree.put(key, text_value(alloc, text)?)
}

// Puts a natural number.
fn put_count(tree: &mut Tree, key: &str, number: u64) -> Result<(), NoMemory>
    ensures { OnOk result (members_put tree.new ≡ put key.now (count number) (members_put tree.old)) }
{
    tree.put(key, Value::from(number))
}

// Puts a whole number.
fn put_whole(tree: &mut Tree, key: &str, number: i64) -> Result<(), NoMemory>
    ensures { OnOk result (members_put tree.new ≡ put key.now (whole number) (members_put tree.old)) }
{
    tree.put(key, Value::from(number))
}

/// The tree of a refusal.
pub(crate) fn refused_tree(alloc: Global, fault: &Fault) -> Result<Value, NoMemory>
    ensures { IfOk result (λ v. view v ≡ texts.refused_tree fault.now) }
{
    let mut tree = Tree::new(alloc);
    put_refusal(alloc, &mut tree, fault)?;
    Ok(tree.finish())
}

// Puts the keys of a refusal into a tree that has none.
#[tactic(auto, unfolding(crate::specs::Texts::refused_tree))]
fn put_refusal(alloc: Global, tree: &mut Tree, fault: &Fault) -> Result<(), NoMemory>
    requires { members_put tree.old ≡ no_members }
    ensures { OnOk result (object (members_put tree.new) ≡ texts.refused_tree fault.now) }
{
    put_count(tree, "code", fault.code as u64)?;
    put_text(alloc, tree, "path", fault.path.as_str())?;
    put_text(alloc, tree, "status", "ROUTING_INVALID")
}

/// The tree of a solution that meets the rules of its model, and has this cost.
#[tactic(auto, unfolding(crate::specs::Texts::met_tree))]
pub(crate) fn met_tree(alloc: Global, cost: i64) -> Result<Value, NoMemory>
    ensures { IfOk result (λ v. view v ≡ texts.met_tree cost) }
{
    Ok(json!(in alloc; {"cost": cost, "status": "MEETS"})?)
}

/// The tree of the first rule that is broken, by its word, with its vehicle and place.
pub(crate) fn broken_tree(
    alloc: Global,
    rule: &str,
    vehicle: i64,
    place: i64,
) -> Result<Value, NoMemory>
    ensures { IfOk result (λ v. view v ≡ texts.broken_tree rule.now vehicle place) }
{
    let mut tree = Tree::new(alloc);
    put_broken(alloc, &mut tree, rule, vehicle, place)?;
    Ok(tree.finish())
}

// Puts the keys of a broken rule into a tree that has none.
#[tactic(auto, unfolding(crate::specs::Texts::broken_tree))]
fn put_broken(
    alloc: Global,
    tree: &mut Tree,
    rule: &str,
    vehicle: i64,
    place: i64,
) -> Result<(), NoMemory>
    requires { members_put tree.old ≡ no_members }
    ensures { OnOk result (object (members_put tree.new) ≡ texts.broken_tree rule.now vehicle place) }
{
    put_whole(tree, "place", place)?;
    put_text(alloc, tree, "rule", rule)?;
    put_text(alloc, tree, "status", "NOT_MET")?;
    put_whole(tree, "vehicle", vehicle)
}

/// What the search of the model of a number gave, in short.
#[derive(Clone, Copy)]
pub(crate) struct Summary {
    pub number: u64,
    pub cost: i64,
    pub first_cost: i64,
    /// How many visits are dropped.
    pub dropped: u64,
    /// How many vehicles are used.
    pub used: u64,
    pub tries: u64,
}

/// The tree of a summary.
pub(crate) fn summary_tree(alloc: Global, summary: &Summary) -> Result<Value, NoMemory>
    ensures { IfOk result (λ v. view v ≡ texts.summary_tree summary.now) }
{
    let mut tree = Tree::new(alloc);
    put_summary(alloc, &mut tree, summary)?;
    Ok(tree.finish())
}

// Puts the keys of a summary into a tree that has none.
#[tactic(auto, unfolding(crate::specs::Texts::summary_tree))]
fn put_summary(alloc: Global, tree: &mut Tree, summary: &Summary) -> Result<(), NoMemory>
    requires { members_put tree.old ≡ no_members }
    ensures { OnOk result (object (members_put tree.new) ≡ texts.summary_tree summary.now) }
{
    put_whole(tree, "cost", summary.cost)?;
    put_count(tree, "dropped", summary.dropped)?;
    put_whole(tree, "first_cost", summary.first_cost)?;
    put_count(tree, "number", summary.number)?;
    put_text(alloc, tree, "status", "DEMO")?;
    put_count(tree, "tries", summary.tries)?;
    put_count(tree, "used", summary.used)
}
