//! Rows of tests, and models that several of them ask about.

use std::test::Fail;
use vr_model::NoMemory;

/// Five nodes, all arcs at 1, and pairs from 1 to 2 and from 3 to 4. One vehicle serves them, keeps a policy, and rests
/// for 3 between the times 2 and 6.
pub(crate) const PAIRED: &str = r#"{"format":1,"nodes":5,"matrices":[
[[0,1,1,1,1],[1,0,1,1,1],[1,1,0,1,1],[1,1,1,0,1],[1,1,1,1,0]]],
"vehicles":[{"start":0,"end":0,"policy":"POLICY"}],
"pairs":[{"pickup":1,"delivery":2},{"pickup":3,"delivery":4}],
"dimensions":[{"name":"time","evaluators":[{"matrix":0}],"slack_max":20,"capacity":100,
"breaks":[{"vehicle":0,"breaks":[{"from":2,"to":6,"duration":3}]}]}]}"#;

/// Fails by the name of the row if it does not hold, or memory ran out.
pub(crate) fn row(name: &'static str, holds: Result<bool, NoMemory>) -> Result<(), Fail> {
    match holds {
        Ok(true) => Ok(()),
        _ => Err(Fail::new(name)),
    }
}
