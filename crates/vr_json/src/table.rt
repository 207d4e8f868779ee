//! Tables: readers of objects, field by field.

ghost use Rattle.std.specs.Prelude.{List, [], ℕ, Result, map};
ghost use Rattle.serde_json.specs.Data.{Data};
ghost use Rattle.serde_json.specs.View.{view};
ghost use Rattle.vr_json.specs.Paths.{name_path};
ghost use Rattle.vr_json.specs.Reading as reading;
ghost use Rattle.vr_json.specs.Reading.{Answers};

use crate::fault::refusal;
use crate::reader::read_alone;
use crate::{Array, Cause, Datum, Path, ReadFail, Reader, field, known, refuse_if};
use serde_json::Value;
use std::alloc::Global;
use vr_model::Seq;

/// The fields of a value at a path. A value that is no object has none. Each call that looks for a field, or at their
/// names, refuses it.
#[derive(Clone, Copy)]
pub struct Fields<'v, 'p> {
    pub alloc: Global,
    pub value: &'v Value,
    pub path: &'p Path,
}

impl Fields<'_, '_> {
    /// A field that must be there.
    ///
    /// Refused as the reader says, and besides:
    ///
    /// - with the cause `Absent`, at the path of the field, if the object has no such field;
    /// - with the cause `OtherKind` if the value is no object.
    #[tactic(auto, unfolding(crate::specs::Reading::and_then, crate::specs::Reading::required, crate::specs::Reading::if_present))]
    pub fn required<R: Reader>(self, name: &str, reader: &R) -> Result<R::Item, ReadFail>
        ensures { Answers result
            (reading.required name.now (R.reads reader.now []) self.entry.path.now (view self.entry.value.now)) }
    {
        match field(self.alloc, self.value, name, self.path)? {
            None => Err(refusal(self.alloc, Cause::Absent, self.path.field(name))),
            Some(value) => read_alone(self.alloc, reader, value, self.path.field(name)),
        }
    }

    /// A field that may be absent, with its value then.
    ///
    /// Refused as the reader says, and with the cause `OtherKind` if the value is no object.
    #[tactic(auto, unfolding(crate::specs::Reading::and_then, crate::specs::Reading::optional, crate::specs::Reading::if_present))]
    pub fn optional<R: Reader>(
        self,
        name: &str,
        absent: R::Item,
        reader: &R,
    ) -> Result<R::Item, ReadFail>
        ensures { Answers result
            (reading.optional name.now absent (R.reads reader.now []) self.entry.path.now (view self.entry.value.now)) }
    {
        match field(self.alloc, self.value, name, self.path)? {
            None => Ok(absent),
            Some(value) => read_alone(self.alloc, reader, value, self.path.field(name)),
        }
    }

    /// An array in a field that may be absent, and has no entries then, as `optional` says.
    pub fn optional_array<R: Reader>(
        self,
        name: &str,
        array: &Array<R>,
    ) -> Result<Seq<R::Item>, ReadFail>
        ensures { let read = reading.array array.now.lo array.now.hi (R.reads array.now.entry) in
            Answers result (reading.optional name.now [] read self.entry.path.now (view self.entry.value.now)) }
    {
        let none = Seq::new(self.alloc);
        self.optional(name, none, array)
    }

    /// A field that may be absent, with no value then.
    ///
    /// Refused as the reader says, and with the cause `OtherKind` if the value is no object.
    #[tactic(auto, unfolding(crate::specs::Reading::and_then, crate::specs::Reading::maybe, crate::specs::Reading::if_present, crate::specs::Reading::present))]
    pub fn maybe<R: Reader>(self, name: &str, reader: &R) -> Result<Option<R::Item>, ReadFail>
        ensures { Answers result
            (reading.maybe name.now (R.reads reader.now []) self.entry.path.now (view self.entry.value.now)) }
    {
        match field(self.alloc, self.value, name, self.path)? {
            None => Ok(None),
            Some(value) => {
                let item = read_alone(self.alloc, reader, value, self.path.field(name))?;
                Ok(Some(item))
            }
        }
    }

    /// Refuses a field of another name, as `known` says.
    pub fn known(self, names: &[&str]) -> Result<(), ReadFail>
        ensures { Answers result
            (reading.known (map (λ name. name.now) names.now) self.entry.path.now (view self.entry.value.now)) }
    {
        known(self.alloc, self.value, names, self.path)
    }

    /// Refuses the field of this name if a rule is broken.
    pub fn refuse_if(self, broken: bool, cause: Cause, name: &str) -> Result<(), ReadFail>
        ensures { Answers result (reading.refuse_if broken cause (name_path self.entry.path.now name.now)) }
    {
        refuse_if(self.alloc, broken, cause, self.path.field(name))
    }
}

/// Reads an object by its fields.
pub trait Table {
    ghost use Rattle.vr_json.specs.declared.fault.Fault.{Fault as FaultOf};

    /// What is read.
    type Row: Drop;

    /// What it reads by its definition, as that of a `Reader`.
    ghost reads: { Self → List Self.Row → List ℕ → Data → Result Self.Row FaultOf };

    /// The row of these fields, beside the rows that come before it in its array. The order of its calls is the order
    /// of the faults. That no other field is there (`known`) is asked after all fields.
    fn read(&self, earlier: &[Self::Row], fields: Fields<'_, '_>) -> Result<Self::Row, ReadFail>
        ensures { Answers result
            (reads self.now earlier.now fields.entry.path.now (view fields.entry.value.now)) };
}

/// An object of which a table reads the fields. The path of its place is made here, once for all of them.
#[derive(Drop)]
pub struct Object<T>(pub T);

impl<T: Table> Reader for Object<T> {
    type Item = T::Row;

    ghost reads = { λ it earlier path d. T.reads it.0 earlier path d };

    fn read(&self, earlier: &[Self::Item], datum: Datum<'_, '_>) -> Result<Self::Item, ReadFail> {
        let path = datum.place.path()?;
        let fields = Fields {
            alloc: datum.alloc,
            value: datum.value,
            path: &path,
        };
        self.0.read(earlier, fields)
    }
}
