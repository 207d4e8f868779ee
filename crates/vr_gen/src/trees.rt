//! The tree of a generated model.

ghost use Rattle.std.specs.Prelude.{◌≡◌, ◌∷◌, ◌+◌, [], map, length, All, ◌<◌, ◌≤◌, ◌^◌, IfOk};
ghost use Rattle.serde_json.specs.View.{view};
ghost use Rattle.vr_model.specs.tables.Numbers.{below};
ghost use Rattle.vr_json.specs.Trees.{count, listed};
ghost use Rattle.vr_gen.specs.Generated as trees;

use crate::draws::{Customer, Site, repeated, words_of};
use serde_json::{Value, json};
use std::alloc::Global;
use vr_json::{Tree, one_entry, text_value};
use vr_model::{NoMemory, Seq};

// How far two numbers are apart.
fn apart(m: u32, n: u32) -> u32
    ensures { result ≡ trees.apart m n }
{
    if m < n { n - m } else { m - n }
}

// How far two sites are apart.
fn distance(a: Site, b: Site) -> u64
    ensures { result ≡ trees.apart a.x b.x + trees.apart a.y b.y }
{
    u64::from(apart(a.x, b.x)) + u64::from(apart(a.y, b.y))
}

// The distances from a site.
fn row(alloc: Global, sites: &[Site], from: Site) -> Result<Value, NoMemory>
    ensures { IfOk result (λ v. view v ≡ trees.row sites.now from) }
{
    let mut entries = Vec::new(alloc);
    for &to in sites {
        entries.push(Value::from(distance(from, to)))?;
    }
    Ok(Value::Array(entries))
}

// The matrix of distances.
fn matrix(alloc: Global, sites: &[Site]) -> Result<Value, NoMemory>
    ensures { IfOk result (λ v. view v ≡ trees.matrix sites.now) }
{
    let mut rows = Vec::new(alloc);
    for &from in sites {
        rows.push(row(alloc, sites, from)?)?;
    }
    Ok(Value::Array(rows))
}

// A vehicle from node 0 to node 0.
fn vehicle(alloc: Global) -> Result<Value, NoMemory>
    ensures { IfOk result (λ tree. view tree ≡ trees.vehicle) }
{
    Ok(json!(in alloc; {"end": 0, "start": 0})?)
}

// The break of a vehicle.
fn rest(alloc: Global, v: u64) -> Result<Value, NoMemory>
    ensures { IfOk result (λ tree. view tree ≡ trees.rest v) }
{
    let pause = json!(in alloc; {"duration": 600, "from": 6000, "to": 9000})?;
    Ok(json!(in alloc; {"breaks": [pause], "vehicle": v})?)
}

// The group of customer `k` alone, with the penalty for leaving it out.
fn group(alloc: Global, k: u64) -> Result<Value, NoMemory>
    requires { k < 2 ^ 32 }
    ensures { IfOk result (λ tree. view tree ≡ trees.group k) }
{
    let node = k + 1;
    Ok(json!(in alloc; {"nodes": [node], "penalty": 10000})?)
}

// What is asked of the search.
#[tactic(auto, unfolding(crate::specs::Generated::search_row))]
fn search_row(alloc: Global) -> Result<Value, NoMemory>
    ensures { IfOk result (λ tree. view tree ≡ trees.search_row) }
{
    let first = "PARALLEL_CHEAPEST_INSERTION";
    let improve = "GUIDED_LOCAL_SEARCH";
    Ok(json!(in alloc; {"first": first, "improve": improve, "tries": 20000})?)
}

// The vehicles.
fn vehicles(alloc: Global) -> Result<Value, NoMemory>
    ensures { IfOk result (λ tree. view tree ≡ listed (λ v. trees.vehicle) (below 6)) }
{
    let mut all = Vec::new(alloc);
    for _v in 0..6u64 {
        all.push(vehicle(alloc)?)?;
    }
    Ok(Value::Array(all))
}

// The break of each vehicle.
fn rests(alloc: Global) -> Result<Value, NoMemory>
    ensures { IfOk result (λ tree. view tree ≡ listed trees.rest (below 6)) }
{
    let mut all = Vec::new(alloc);
    for v in 0..6u64 {
        all.push(rest(alloc, v)?)?;
    }
    Ok(Value::Array(all))
}

// The group of each node but 0.
fn groups(alloc: Global) -> Result<Value, NoMemory>
    ensures { IfOk result (λ tree. view tree ≡ listed trees.group (below 60)) }
{
    let mut all = Vec::new(alloc);
    for k in 0..60u64 {
        all.push(group(alloc, k)?)?;
    }
    Ok(Value::Array(all))
}

// Numbers as an array.
fn counts(alloc: Global, numbers: &[u32]) -> Result<Vec<Value>, NoMemory>
    ensures { IfOk result (λ values. map view values.items ≡ map count numbers.now) }
{
    let mut values = Vec::new(alloc);
    for &number in numbers {
        values.push(Value::from(number))?;
    }
    Ok(values)
}

// 0 for node 0, and a number for each other node.
fn values(alloc: Global, others: &[u32]) -> Result<Value, NoMemory>
    ensures { IfOk result (λ tree. view tree ≡ trees.values others.now) }
{
    let mut all = counts(alloc, others)?;
    all.insert(0, Value::from(0u32))?;
    Ok(Value::Array(all))
}

// The window of customer `k`, which is node `k + 1`.
fn window(alloc: Global, customers: &[Customer], k: usize) -> Result<Value, NoMemory>
    requires place { k < length customers.now }
    requires few { length customers.now ≤ 60 }
    ensures { IfOk result (λ tree. view tree ≡ trees.window customers.now k) }
{
    let node = k as u64 + 1;
    let lo = u64::from(customers[k].lo);
    let hi = lo + 4000;
    Ok(json!(in alloc; {"node": node, "window": [lo, hi]})?)
}

// The windows of all nodes but 0.
fn windows(alloc: Global, customers: &[Customer]) -> Result<Value, NoMemory>
    requires { length customers.now ≤ 60 }
    ensures { IfOk result (λ tree.
        view tree ≡ listed (trees.window customers.now) (below (length customers.now))) }
{
    let mut all = Vec::new(alloc);
    for k in 0..customers.len() {
        all.push(window(alloc, customers, k)?)?;
    }
    Ok(Value::Array(all))
}

// The demands of customers.
fn demands(alloc: Global, customers: &[Customer]) -> Result<Vec<u32>, NoMemory>
    ensures { IfOk result (λ demands. demands.items ≡ map trees.demand_of customers.now) }
{
    let mut all = Vec::new(alloc);
    for customer in customers {
        all.push(customer.demand)?;
    }
    Ok(all)
}

// How long it takes from node to node, as an evaluator: the distance, and the visit at which the arc begins. `services`
// has the length of a visit for each node but 0.
fn transit(alloc: Global, services: &[u32]) -> Result<Value, NoMemory>
    ensures { IfOk result (λ tree. view tree ≡ trees.transit services.now) }
{
    let added = values(alloc, services)?;
    Ok(json!(in alloc; {"matrix": 0, "values": added})?)
}

// The dimension of times.
#[tactic(auto, unfolding(crate::specs::Generated::times))]
fn times(alloc: Global, customers: &[Customer]) -> Result<Value, NoMemory>
    requires { length customers.now ≤ 60 }
    ensures { IfOk result (λ tree. view tree ≡ trees.times customers.now) }
{
    // how long each visit takes: it adds to transits (`values`), and a break begins after it (`visit`)
    let services = [30u32; 60];
    let mut tree = Tree::new(alloc);
    tree.put("breaks", rests(alloc)?)?;
    tree.put("capacity", Value::from(20000u32))?;
    tree.put("evaluators", one_entry(alloc, transit(alloc, &services)?)?)?;
    tree.put("name", text_value(alloc, "time")?)?;
    tree.put("nodes", windows(alloc, customers)?)?;
    tree.put("slack_max", Value::from(20000u32))?;
    tree.put("visit", values(alloc, &services)?)?;
    Ok(tree.finish())
}

// The dimension of loads.
#[tactic(auto, unfolding(crate::specs::Generated::loads))]
fn loads(alloc: Global, customers: &[Customer]) -> Result<Value, NoMemory>
    ensures { IfOk result (λ tree. view tree ≡ trees.loads customers.now) }
{
    let added = values(alloc, &demands(alloc, customers)?)?;
    let evaluator = json!(in alloc; {"values": added})?;
    let mut tree = Tree::new(alloc);
    tree.put("capacity", Value::from(60u32))?;
    tree.put("evaluators", one_entry(alloc, evaluator)?)?;
    tree.put("fix_start", Value::Bool(true))?;
    tree.put("name", text_value(alloc, "load")?)?;
    tree.put("slack_max", Value::from(0u32))?;
    Ok(tree.finish())
}

// The dimensions.
fn dimensions(alloc: Global, customers: &[Customer]) -> Result<Value, NoMemory>
    requires { length customers.now ≤ 60 }
    ensures { IfOk result (λ tree. view tree ≡ trees.dimensions customers.now) }
{
    let mut all = Vec::new(alloc);
    all.push(times(alloc, customers)?)?;
    all.push(loads(alloc, customers)?)?;
    Ok(Value::Array(all))
}

// The model of these sites and customers.
#[tactic(auto, unfolding(crate::specs::Generated::model_of))]
fn model(alloc: Global, sites: &[Site], customers: &[Customer]) -> Result<Value, NoMemory>
    requires { length customers.now ≤ 60 }
    ensures { IfOk result (λ tree. view tree ≡ trees.model_of sites.now customers.now) }
{
    let matrices = one_entry(alloc, matrix(alloc, sites)?)?;
    let mut tree = Tree::new(alloc);
    tree.put("dimensions", dimensions(alloc, customers)?)?;
    tree.put("format", Value::from(1u32))?;
    tree.put("groups", groups(alloc)?)?;
    tree.put("matrices", matrices)?;
    tree.put("nodes", Value::from(61u32))?;
    tree.put("search", search_row(alloc)?)?;
    tree.put("vehicles", vehicles(alloc)?)?;
    Ok(tree.finish())
}

/// The model of a number: 61 nodes in a square, six vehicles with a break each, and customers with windows and loads.
/// Each customer may be left out at a price.
pub fn generate(alloc: Global, number: u64) -> Result<Value, NoMemory>
    ensures { IfOk result (λ tree. view tree ≡ trees.generated number) }
{
    let mut words = words_of(number);
    // all sites are drawn before the first customer
    let sites = repeated::<Site>(alloc, &mut words, 61)?;
    let customers = repeated::<Customer>(alloc, &mut words, 60)?;
    model(alloc, sites.as_slice(), customers.as_slice())
}
