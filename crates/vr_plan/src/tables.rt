//! What is looked up once of each dimension of a model, for all lists.

ghost use Rattle.std.specs.Prelude.{◌≡◌, ◌<◌, IfOk, length};
ghost use Rattle.std.specs.Option.{option_copied};
ghost use Rattle.std.specs.List.{All};
ghost use Rattle.vr_model.specs.tables.Tables.{dimension_at, row_of as row_of_key};
ghost use Rattle.vr_model.specs.tables.WellFormed.{IsStopRow, IsWellFormed, WherePresent};
ghost use Rattle.vr_lists.specs.Places.{ArePlaces};
ghost use Rattle.vr_plan.specs.Tables.{keys_of as keys_of_rows, AreTables, IsTable};

use crate::paying::{is_free, is_hard};
use std::alloc::Global;
use vr_lists::write_places;
use vr_model::{Closed, Model, NoMemory, Seq, StopRow};
use vr_reach::Stops;

/// What is looked up of one dimension.
#[derive(Drop)]
pub struct Table {
    /// What its stops ask.
    pub stops: Stops,
    /// For each node the place of its row among the rows of visits, the number of rows if it has none.
    pub row_places: Vec<u32>,
    /// Whether no schedule of any list may cost anything by itself. That is: no vehicle has a coefficient of spans that
    /// is not 0, and no stop a soft upper bound.
    pub is_free: bool,
    /// Whether no stop has a soft upper bound.
    pub is_hard: bool,
}

/// A dimension of a model, and what is looked up of it. `vr_costfilter` alone makes it.
#[derive(Drop)]
pub struct KnownDimension<'m> {
    /// The model.
    pub model: &'m Model,
    /// What is looked up of the dimension.
    pub table: &'m Table,
    /// The number of the dimension.
    pub d: u32,
}

// The keys of rows.
fn keys_of(alloc: Global, rows: &Seq<StopRow>) -> Result<Vec<u32>, NoMemory>
    ensures { IfOk result (λ keys. keys.items ≡ keys_of_rows rows.now) }
{
    let mut keys = Vec::with_capacity(alloc, rows.len())?;
    for k in 0..rows.len() {
        keys.push(rows.get(k).key)?;
    }
    Ok(keys)
}

// For each node the place of its row among the rows of visits of dimension `d`, the number of rows if it has none.
fn row_places(alloc: Global, closed: Closed<'_>, d: u32) -> Result<Vec<u32>, NoMemory>
    requires dimension { d < length closed.model.now.dimensions }
    ensures { IfOk result (λ places.
        ArePlaces closed.entry.model.now.nodes
        (keys_of_rows (dimension_at closed.entry.model.now d).nodes) places.items) }
{
    let keys = keys_of(alloc, &closed.model.dimensions.get(d as usize).nodes)?;
    let mut places = Vec::new(alloc);
    places.resize(closed.model.nodes as usize, 0)?;
    write_places(&keys, &mut places);
    Ok(places)
}

/// The row of a node among rows, by the places that were looked up; `StopRow::of_key` would search the rows. `None` if
/// the node has none, whose place is the number of rows.
pub fn row_of<'r>(rows: &'r Seq<StopRow>, places: &[u32], node: u32) -> Option<&'r StopRow>
    requires places { ArePlaces (length places.now) (keys_of_rows rows.now) places.now }
    requires node { node < length places.now }
    ensures value { option_copied result ≡ row_of_key rows.now node }
    ensures valid { All IsStopRow rows.now → WherePresent IsStopRow (option_copied result) }
{
    rows.as_slice().get(places[node as usize] as usize)
}

// What is looked up of dimension `d`.
fn table_of(alloc: Global, closed: Closed<'_>, d: u32) -> Result<Table, NoMemory>
    requires dimension { d < length closed.model.now.dimensions }
    ensures { IfOk result (IsTable closed.entry.model.now d) }
{
    Ok(Table {
        stops: Stops::build(alloc, closed, d)?,
        row_places: row_places(alloc, closed, d)?,
        is_free: is_free(closed.model.dimensions.get(d as usize)),
        is_hard: is_hard(closed.model.dimensions.get(d as usize)),
    })
}

/// What is looked up of all dimensions, for `Lookups`; beside it tests alone ask. It fails only if it is out of memory.
pub fn tables_of(alloc: Global, model: &Model) -> Result<Vec<Table>, NoMemory>
    requires { IsWellFormed model.now }
    ensures { IfOk result (λ tables. AreTables model.now tables.items) }
{
    let mut tables = Vec::with_capacity(alloc, model.dimensions.len())?;
    for d in 0..model.dimensions.len() {
        tables.push(table_of(alloc, Closed { model }, d as u32)?)?;
    }
    Ok(tables)
}
