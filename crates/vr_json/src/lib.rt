//! Readers of the fields of a JSON value, and a builder of JSON trees.
//!
//! A reader is a value that reads one kind. It may be a number in a range, a word, an array of something, or an object
//! by a table of its fields. A tree is built field by field, in any order. `to_line` prints it, its keys in the order
//! of bytes (`tree`).
//!
//! Each reader is beside its definition (`specs/`). It answers the value, or the code of the fault and the path of what
//! is refused. The first fault in the order of the table is the answer. If memory runs out, it answers that instead
//! (`ReadFail`).
//!
//! `vr_read`, `vr_printed`, `vr_given` and `vr_app` (the object of a check) read by it. `vr_gen`, `vr_print`,
//! `vr_tsplib` and `vr_app` build trees by it; `vr_print` prints solutions, and `vr_app` all else. [`Cause`] has the
//! faults of models too. `vr_tsplib` gives flaws of its own as [`Fault`]s. This crate takes lists and texts from
//! `vr_model`.
//!
//! Read `reader` first, which has the trait of readers and what one is handed. Then:
//!
//! - `leaves` reads numbers, booleans and texts over the calls of `kinds`, and words by itself (`Choice`);
//! - `arrays` reads arrays entry by entry, and `table` reads objects, over the calls of `fields`;
//! - `fault` has the causes and the refusal, and `path` says at which path of a tree a value is;
//! - `place` is a path with at most one step more, whose text is made only when it is asked for.
#![tactic(auto)]

mod arrays;
mod fault;
mod fields;
mod kinds;
mod leaves;
mod path;
mod place;
mod reader;
mod table;
mod tree;

pub use arrays::{Array, ForEach, TwoEntries, copies};
pub use fault::{Cause, Fault, ReadFail};
pub use fields::{field, known};
pub use kinds::{flag, list, text, whole, word};
pub use leaves::{Below, Choice, Count, Flag, TextOf, Whole};
pub use path::Path;
pub use place::{Place, Step};
pub use reader::{Datum, Reader, refuse_if, settle};
pub use table::{Fields, Object, Table};
pub use tree::{Tree, one_entry, text_value, to_line};
