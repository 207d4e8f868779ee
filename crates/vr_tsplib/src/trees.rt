//! The tree of the model of a file.

ghost use Rattle.std.specs.Prelude.{◌≡◌, ◌≤◌, ◌<◌, All, IfOk, map};
ghost use Rattle.std.specs.List.{range_with_len};
ghost use Rattle.serde_json.specs.View.{view};
ghost use Rattle.vr_model.specs.tables.Limits.{most_nodes};
ghost use Rattle.vr_model.specs.tables.Numbers.{below};
ghost use Rattle.vr_tsplib.specs.Trees as trees;
ghost use Rattle.vr_tsplib.specs.Rows as row_tables;
ghost use Rattle.vr_tsplib.specs.Ranges.{IsSiteInRange};

use crate::files::State;
use crate::roots::nearest_root;
use crate::section_rows::SiteRow;
use crate::summaries::{Distances, Problem, demand_of};
use serde_json::{Value, json};
use std::alloc::Global;
use vr_json::{Tree, one_entry, text_value};
use vr_model::NoMemory;

// The distance of two nodes in the plane.
fn distance(a: SiteRow, b: SiteRow) -> u64
    requires first { IsSiteInRange a }
    requires second { IsSiteInRange b }
    ensures { result ≡ trees.distance a b }
{
    let dx = a.x.abs_diff(b.x);
    let dy = a.y.abs_diff(b.y);
    nearest_root(dx * dx + dy * dy)
}

// The row of a node. It is the origin if the node has none, which does not come: a whole section has a row of each
// node.
fn site_of(rows: &[SiteRow], node: u32) -> SiteRow
    ensures { result ≡ row_tables.site_of rows.now node }
{
    for row in rows {
        if row.node == node {
            return *row;
        }
    }
    SiteRow { node, x: 0, y: 0 }
}

// The point of each of `n` nodes.
fn sites(alloc: Global, n: u32, rows: &[SiteRow]) -> Result<Vec<SiteRow>, NoMemory>
    ensures { IfOk result (λ all. all.items ≡ trees.sites n rows.now) }
{
    let mut all = Vec::new(alloc);
    for k in 0..n {
        all.push(site_of(rows, k + 1))?;
    }
    Ok(all)
}

// The distances from a node.
fn plane_row(alloc: Global, places: &[SiteRow], from: SiteRow) -> Result<Value, NoMemory>
    requires all { All IsSiteInRange places.now }
    requires one { IsSiteInRange from }
    ensures { IfOk result (λ tree. view tree ≡ trees.plane_row places.now from) }
{
    let mut entries = Vec::new(alloc);
    for &to in places {
        entries.push(Value::from(distance(from, to)))?;
    }
    Ok(Value::Array(entries))
}

// The matrix of distances.
fn plane(alloc: Global, places: &[SiteRow]) -> Result<Value, NoMemory>
    requires { All IsSiteInRange places.now }
    ensures { IfOk result (λ tree. view tree ≡ trees.plane places.now) }
{
    let mut rows = Vec::new(alloc);
    for &from in places {
        rows.push(plane_row(alloc, places, from)?)?;
    }
    Ok(Value::Array(rows))
}

// The weight at a place of the weights. It is 0 after the last, which does not come: a whole section has all that its
// format asks.
fn weight_at(weights: &[u64], k: u64) -> u64
    ensures { result ≡ trees.weight_at weights.now k }
{
    if k < weights.len() as u64 {
        weights[k as usize]
    } else {
        0
    }
}

/// The weights of the arcs between this many nodes, as a file has them.
#[derive(Clone, Copy)]
pub(crate) struct FileWeights<'a> {
    /// Whether each node has those to all lower ones alone.
    pub(crate) lower: bool,
    pub(crate) n: u64,
    pub(crate) weights: &'a [u64],
    pub ghost few: { n ≤ most_nodes },
}

// The weight of two nodes, if the weights are a full matrix.
fn full_weight(of: &FileWeights<'_>, i: u64, j: u64) -> u64
    requires first { i < of.now.n }
    requires second { j < of.now.n }
    ensures { result ≡ trees.full_weight of.now.n of.now.weights.now i j }
{
    weight_at(of.weights, i * of.n + j)
}

// The weight of two nodes, if each node has those to all lower ones. It holds both ways, and is 0 of a node with
// itself. Node `hi` has `hi` weights, so before its row come those of the nodes below, `hi * (hi - 1) / 2`.
fn lower_weight(of: &FileWeights<'_>, i: u64, j: u64) -> u64
    requires first { i < of.now.n }
    requires second { j < of.now.n }
    ensures { result ≡ trees.lower_weight of.now.weights.now i j }
{
    if i == j {
        return 0;
    }
    let hi = i.max(j);
    let lo = i.min(j);
    weight_at(of.weights, hi * hi.saturating_sub(1) / 2 + lo)
}

// The weight of two nodes, if the weights are in the file.
fn weight(of: &FileWeights<'_>, i: u64, j: u64) -> u64
    requires first { i < of.now.n }
    requires second { j < of.now.n }
    ensures { result ≡ trees.weight of.now.lower of.now.n of.now.weights.now i j }
{
    if of.lower {
        lower_weight(of, i, j)
    } else {
        full_weight(of, i, j)
    }
}

// The weights of a node.
fn square_row(alloc: Global, of: &FileWeights<'_>, i: u64) -> Result<Value, NoMemory>
    requires { i < of.now.n }
    ensures { IfOk result (λ tree. view tree ≡ trees.square_row of.now.lower of.now.n of.now.weights.now i) }
{
    let mut entries = Vec::new(alloc);
    for j in 0..of.n {
        entries.push(Value::from(weight(of, i, j)))?;
    }
    Ok(Value::Array(entries))
}

// The matrix of weights that are in the file.
fn square(alloc: Global, of: &FileWeights<'_>) -> Result<Value, NoMemory>
    ensures { IfOk result (λ tree. view tree ≡ trees.square of.now.lower of.now.n of.now.weights.now) }
{
    let mut rows = Vec::new(alloc);
    for i in 0..of.n {
        rows.push(square_row(alloc, of, i)?)?;
    }
    Ok(Value::Array(rows))
}

// The matrix of the weights that a file has.
fn weighed(alloc: Global, lower: bool, n: u32, state: &State) -> Result<Value, NoMemory>
    requires { n ≤ most_nodes }
    ensures { IfOk result (λ tree. view tree ≡ trees.square lower n state.now.weights) }
{
    let weights = state.weights.as_slice();
    let of = FileWeights {
        lower,
        n: u64::from(n),
        weights,
    };
    square(alloc, &of)
}

// The one matrix of the model, of which arcs have their costs: by how the file gives the distances.
fn matrix(alloc: Global, distances: Distances, n: u32, state: &State) -> Result<Value, NoMemory>
    requires few { n ≤ most_nodes }
    requires near { All IsSiteInRange state.now.sites }
    ensures { IfOk result (λ tree. view tree ≡ trees.matrix distances n state.now) }
{
    match distances {
        Distances::Plane => {
            let places = sites(alloc, n, state.sites.as_slice())?;
            plane(alloc, &places)
        }
        Distances::Full => weighed(alloc, false, n, state),
        Distances::Lower => weighed(alloc, true, n, state),
    }
}

// The demands of all nodes.
fn demands(alloc: Global, n: u32, state: &State) -> Result<Value, NoMemory>
    ensures { IfOk result (λ tree. view tree ≡ trees.demands n state.now) }
{
    let mut all = Vec::new(alloc);
    for k in 0..n {
        all.push(Value::from(demand_of(state.demands.as_slice(), k + 1)))?;
    }
    Ok(Value::Array(all))
}

// The dimension of loads, which begins at 0: the transit from a node is its demand, and no arc has a slack.
#[tactic(auto, unfolding(crate::specs::Trees::loads))]
fn loads(alloc: Global, capacity: u64, demands: Value) -> Result<Value, NoMemory>
    ensures { IfOk result (λ tree. view tree ≡ trees.loads capacity (view demands)) }
{
    let evaluator = json!(in alloc; {"values": demands})?;
    let mut tree = Tree::new(alloc);
    tree.put("capacity", Value::from(capacity))?;
    tree.put("evaluators", one_entry(alloc, evaluator)?)?;
    tree.put("fix_start", Value::Bool(true))?;
    tree.put("name", text_value(alloc, "load")?)?;
    tree.put("slack_max", Value::from(0u32))?;
    Ok(tree.finish())
}

// A vehicle from a node to that node.
fn vehicle(alloc: Global, node: u32) -> Result<Value, NoMemory>
    ensures { IfOk result (λ tree. view tree ≡ trees.vehicle node) }
{
    Ok(json!(in alloc; {"end": node, "start": node})?)
}

// This many vehicles at a node.
fn fleet(alloc: Global, count: u32, node: u32) -> Result<Value, NoMemory>
    ensures { IfOk result (λ tree. view tree ≡ trees.fleet count node) }
{
    let mut all = Vec::new(alloc);
    for _v in 0..count {
        all.push(vehicle(alloc, node)?)?;
    }
    Ok(Value::Array(all))
}

/// The model of a file, with this many vehicles.
#[tactic(auto, unfolding(crate::specs::Trees::tree_of))]
pub(crate) fn tree(
    alloc: Global,
    vehicles: u32,
    state: &State,
    problem: Problem,
) -> Result<Value, NoMemory>
    requires few { problem.nodes ≤ most_nodes }
    requires near { All IsSiteInRange state.now.sites }
    ensures { IfOk result (λ tree. view tree ≡ trees.tree_of vehicles state.now problem) }
{
    let orders = demands(alloc, problem.nodes, state)?;
    let loads = loads(alloc, problem.capacity, orders)?;
    let mut tree = Tree::new(alloc);
    tree.put("dimensions", one_entry(alloc, loads)?)?;
    tree.put("format", Value::from(1u32))?;
    let matrix = matrix(alloc, problem.distances, problem.nodes, state)?;
    tree.put("matrices", one_entry(alloc, matrix)?)?;
    tree.put("nodes", Value::from(problem.nodes))?;
    // the model numbers nodes from 0
    let depot = problem.depot.saturating_sub(1);
    tree.put("vehicles", fleet(alloc, vehicles, depot)?)?;
    Ok(tree.finish())
}
