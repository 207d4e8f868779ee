//! The columns of the cost matrices, each kept in a row: what the arcs to one node cost from each node.

ghost use Rattle.std.specs.Prelude.{◌≡◌, ◌<◌, IfOk, length};
ghost use Rattle.vr_ruin.specs.Columns.{AreArcsTo, AreColumns, AreColumnsOf, IsColumn};

use std::alloc::Global;
use vr_model::{Closed, NoMemory, Seq};

/// The columns of a matrix.
#[derive(Drop)]
pub(crate) struct MatrixColumns {
    columns: Vec<Seq<i64>>,
}

// Column `x` of matrix `m`.
fn column_of(alloc: Global, closed: Closed<'_>, m: u32, x: u32) -> Result<Seq<i64>, NoMemory>
    requires matrix { m < length closed.model.now.matrices }
    requires node { x < closed.model.now.nodes }
    ensures { IfOk result (λ column. IsColumn closed.entry.model.now m x column) }
{
    let n = closed.model.nodes;
    let matrix = closed.model.matrices.get(m as usize);
    let mut column = Seq::with_capacity(alloc, n as usize)?;
    for i in 0..n {
        column.push(matrix.entry(n, i, x))?;
    }
    Ok(column)
}

// The columns of matrix `m`.
fn columns_in(alloc: Global, closed: Closed<'_>, m: u32) -> Result<MatrixColumns, NoMemory>
    requires { m < length closed.model.now.matrices }
    ensures { IfOk result (λ one. AreColumnsOf closed.entry.model.now m one.columns.items) }
{
    let mut columns = Vec::with_capacity(alloc, closed.model.nodes as usize)?;
    for x in 0..closed.model.nodes {
        columns.push(column_of(alloc, closed, m, x)?)?;
    }
    Ok(MatrixColumns { columns })
}

/// The columns of the matrices of a model. It fails only if memory runs out.
pub(crate) fn columns_of(alloc: Global, closed: Closed<'_>) -> Result<Vec<MatrixColumns>, NoMemory>
    ensures { IfOk result (λ all. AreColumns closed.entry.model.now all.items) }
{
    let matrices = closed.model.matrices.len();
    let mut all = Vec::with_capacity(alloc, matrices)?;
    for m in 0..matrices {
        all.push(columns_in(alloc, closed, m as u32)?)?;
    }
    Ok(all)
}

/// What the arcs to node `x` cost vehicle `v`, from each node.
pub(crate) fn arcs_to<'c>(
    closed: Closed<'_>,
    columns: &'c [MatrixColumns],
    v: u32,
    x: u32,
) -> &'c [i64]
    requires columns { AreColumns closed.model.now columns.now }
    requires vehicle { v < length closed.model.now.vehicles }
    requires node { x < closed.model.now.nodes }
    ensures { AreArcsTo closed.entry.model.now v x result.now }
{
    let costs = closed.model.vehicles.get(v as usize).costs;
    let of_matrix = &columns[costs as usize];
    let column = &of_matrix.columns[x as usize];
    column.as_slice()
}
