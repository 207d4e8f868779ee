//! The trait of readers, what one is handed, and what becomes of a cause at the place of a value.

ghost use Rattle.std.specs.Prelude.{List, [], ℕ, Result};
ghost use Rattle.serde_json.specs.Data.{Data};
ghost use Rattle.serde_json.specs.View.{view};
ghost use Rattle.vr_json.specs.Reading as reading;
ghost use Rattle.vr_json.specs.Reading.{Answers, at_path};
ghost use Rattle.vr_json.specs.Places.{place_path};

use crate::fault::refusal;
use crate::{Cause, Place, ReadFail};
use serde_json::Value;
use std::alloc::Global;

/// A value, the place at which it is, and the memory for what is read of it.
#[derive(Clone, Copy)]
pub struct Datum<'v, 'p> {
    pub alloc: Global,
    pub value: &'v Value,
    pub place: Place<'p>,
}

impl Datum<'_, '_> {
    /// What was read of the value. A refusal is at its place.
    pub fn settle<T>(self, outcome: Result<T, Cause>) -> Result<T, ReadFail>
        ensures { Answers result (at_path (place_path self.entry.place) outcome) }
    {
        settle(self.alloc, outcome, self.place)
    }

    /// Refuses the value if a rule is broken.
    pub fn refuse_if(self, broken: bool, cause: Cause) -> Result<(), ReadFail>
        ensures { Answers result (reading.refuse_if broken cause (place_path self.entry.place)) }
    {
        refuse_if(self.alloc, broken, cause, self.place)
    }
}

/// Reads a value of one form.
pub trait Reader {
    ghost use Rattle.vr_json.specs.declared.fault.Fault.{Fault as FaultOf};

    /// What is read.
    type Item: Drop;

    /// What it reads by its definition, of the entries before a value, its path and its tree: an item, or a fault.
    ghost reads: { Self → List Self.Item → List ℕ → Data → Result Self.Item FaultOf };

    /// What the value is. `earlier` are the entries before it, if it is an entry of an `Array` or a `ForEach`; else
    /// there are none. Readers ask them that refuse a value for the second time.
    fn read(&self, earlier: &[Self::Item], datum: Datum<'_, '_>) -> Result<Self::Item, ReadFail>
        ensures { Answers result
            (reads self.now earlier.now (place_path datum.entry.place) (view datum.entry.value.now)) };
}

// What a reader makes of a value at a place, with no entry before it.
pub(crate) fn read_alone<R: Reader>(
    alloc: Global,
    reader: &R,
    value: &Value,
    place: Place<'_>,
) -> Result<R::Item, ReadFail>
    ensures { Answers result (R.reads reader.now [] (place_path place.entry) (view value.now)) }
{
    let datum = Datum {
        alloc,
        value,
        place,
    };
    reader.read(&[], datum)
}

/// What was read at a place; a refusal is at that very place. It is `Datum::settle` for who has no `Datum`.
#[tactic(auto, unfolding(crate::specs::Reading::at_path))]
pub fn settle<T>(alloc: Global, outcome: Result<T, Cause>, place: Place<'_>) -> Result<T, ReadFail>
    ensures { Answers result (at_path (place_path place.entry) outcome) }
{
    match outcome {
        Ok(found) => Ok(found),
        Err(cause) => Err(refusal(alloc, cause, place)),
    }
}

/// Refuses the value at a place if a rule is broken: `Datum::refuse_if` for who has no `Datum`.
#[tactic(auto, unfolding(crate::specs::Reading::refuse_if))]
pub fn refuse_if(
    alloc: Global,
    broken: bool,
    cause: Cause,
    place: Place<'_>,
) -> Result<(), ReadFail>
    ensures { Answers result (reading.refuse_if broken cause (place_path place.entry)) }
{
    if broken {
        Err(refusal(alloc, cause, place))
    } else {
        Ok(())
    }
}
