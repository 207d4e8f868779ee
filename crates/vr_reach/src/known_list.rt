//! Lists whose rows are known.

use crate::level_rows::Rows;

/// A list of a vehicle, and its rows in a dimension. Of the rows of a list without a visit nothing is said.
#[derive(Clone, Copy)]
pub struct KnownList<'l, 'r> {
    /// The list.
    pub list: &'l [u32],
    /// Its rows.
    pub rows: &'r Rows,
}
