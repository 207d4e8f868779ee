//! The table of matrices.

ghost use Rattle.std.specs.Prelude.{◌≡◌, flat_map, IfOk};
ghost use Rattle.vr_read.specs.Vehicles as vehicle_tables;

use std::alloc::Global;
use vr_json::{Array, Datum, ReadFail, Reader, Whole};
use vr_model::limits::{GREATEST_COST, LEAST_VALUE};
use vr_model::{Matrix, NoMemory, Seq};

// The numbers of all rows, row by row.
fn joined(alloc: Global, rows: &[Seq<i64>]) -> Result<Seq<i64>, NoMemory>
    ensures { IfOk result (λ entries. entries ≡ flat_map (λ row. row) rows.now) }
{
    let mut entries = Seq::new(alloc);
    for row in rows {
        entries.extend_from_slice(row.as_slice())?;
    }
    Ok(entries)
}

/// A matrix: an array of arrays of whole numbers, this many of each, in a range that holds arc costs and transits. What
/// is asked if a vehicle or a dimension uses it is a rule on the whole model (`model_rules`).
#[derive(Clone, Copy)]
pub struct MatrixTable {
    pub nodes: u32,
}

impl Reader for MatrixTable {
    type Item = Matrix;

    ghost reads = { λ it earlier path d. vehicle_tables.matrix it.nodes path d };

    fn read(&self, _earlier: &[Self::Item], datum: Datum<'_, '_>) -> Result<Self::Item, ReadFail> {
        let nodes = self.nodes as usize;
        let entry = Whole {
            lo: LEAST_VALUE,
            hi: GREATEST_COST,
        };
        let row = Array {
            lo: nodes,
            hi: nodes,
            entry,
        };
        let table = Array {
            lo: nodes,
            hi: nodes,
            entry: row,
        };
        let rows = table.read(&[], datum)?;
        let entries = joined(datum.alloc, rows.as_slice())?;
        Ok(Matrix { entries })
    }
}
