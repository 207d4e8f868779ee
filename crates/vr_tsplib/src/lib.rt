//! Import of routing problems from TSPLIB files of type CVRP. Such a file becomes the tree of a model of format 1, with
//! as many vehicles as the caller says. A line `DIMENSION : 5`, say, makes five nodes. With `EUC_2D` their rows of
//! coordinates make the matrix of distances.
//!
//! A file is read line by line, once. What a line says is kept in a `State`: the head and the rows of the sections.
//! The head has the keywords, which sections came, and the part of the file that the next line is in. Nothing of the
//! file's text is kept. The state after each line is that of the definition `read_lines`, so the first faulty line
//! gives the answer.
//!
//! `vr_app` calls `import`. This crate calls `vr_json`, which makes the tree.
//!
//! Start at `imports`, which is all of that: `files` goes over the lines, `summaries` says what a whole file says, and
//! `trees` makes the tree. The other files are these:
//!
//! - `sections` reads lines outside sections, by the keywords of `heads`.
//! - `section_rows` and `weights` read lines inside sections.
//! - `texts`, `words` and `numbers` read what is in a line.
//! - `flaws` has what is refused.
//! - `roots` has rounded square roots, which are the distances of nodes in the plane.
#![tactic(auto)]

mod files;
mod flaws;
mod heads;
mod imports;
mod numbers;
mod roots;
mod section_rows;
mod sections;
mod summaries;
mod texts;
mod trees;
mod weights;
mod words;

pub use files::State;
pub use flaws::Flaw;
pub use heads::{Head, Heading, Keyword, LinePlace, WeightFormat, WeightType};
pub use imports::import;
pub use roots::nearest_root;
pub use section_rows::{DemandRow, SiteRow};
pub use summaries::{Distances, Problem};
