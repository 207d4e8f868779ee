//! What tests compare of sets and levels.

use vr_model::NoMemory;
use vr_spans::Spans;
use vr_steps::Levels;

/// The number of runs of a set, and its least and greatest number.
pub type Extent = (usize, Option<i64>, Option<i64>);

pub const NOTHING: Extent = (0, None, None);

fn extent(set: &Spans) -> Extent {
    (set.len(), set.least(), set.greatest())
}

/// Whether levels have these sets, one for each number of breaks that were taken.
pub fn have(levels: &Levels, wanted: &[Extent]) -> bool {
    for (b, found) in wanted.iter().enumerate() {
        if b >= levels.len() || extent(levels.level(b)) != *found {
            return false;
        }
    }
    levels.len() == wanted.len()
}

/// Whether levels were made, with these sets.
pub fn gives(made: Result<Levels, NoMemory>, wanted: &[Extent]) -> bool {
    match made {
        Ok(levels) => have(&levels, wanted),
        Err(_) => false,
    }
}
