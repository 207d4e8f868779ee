//! The import of a file.

ghost use Rattle.std.specs.Prelude.{◌≤◌};
ghost use Rattle.serde_json.specs.View.{view};
ghost use Rattle.vr_json.specs.Reading.{Answers, seen};
ghost use Rattle.vr_model.specs.tables.Limits.{most_vehicles};
ghost use Rattle.vr_tsplib.specs.Imported.{imported, model_of_lines};
ghost use Rattle.vr_tsplib.specs.Ranges.{AreLinesInRange};

use crate::files::{State, read_lines};
use crate::flaws::{LineFail, refusal};
use crate::summaries::complete;
use crate::trees::tree;
use serde_json::Value;
use std::alloc::Global;
use vr_json::ReadFail;

// The tree of the model that the lines of a whole file say.
fn model(alloc: Global, vehicles: u32, state: &State) -> Result<Value, ReadFail>
    requires { AreLinesInRange state.now }
    ensures { Answers (seen view result) (model_of_lines vehicles state.now) }
{
    match complete(state) {
        Ok(problem) => Ok(tree(alloc, vehicles, state, problem)?),
        Err(flaw) => Err(refusal(alloc, LineFail::Flawed(flaw), 0)),
    }
}

/// The tree of the model of a TSPLIB file of type CVRP, with this many vehicles, 1 to 100.
///
/// A file with a flaw is refused, with the code of its first flaw and the path `/LINE`, the number of the line from 1.
/// The path is `/0` if something is missing at the end of the file, or if the depot has a demand.
pub fn import(alloc: Global, bytes: &[u8], vehicles: u32) -> Result<Value, ReadFail>
    requires some { 1 ≤ vehicles }
    requires few { vehicles ≤ most_vehicles }
    ensures { Answers (seen view result) (imported vehicles bytes.now) }
{
    let state = read_lines(alloc, bytes)?;
    model(alloc, vehicles, &state)
}
