//! Why a value is refused, and at which path.

ghost use Rattle.std.specs.Prelude.{◌≡◌, IfOk};
ghost use Rattle.vr_json.specs.Causes.{code_of, fault_at};
ghost use Rattle.vr_json.specs.Places.{place_path};
ghost use Rattle.vr_json.specs.Reading.{Refuses};
ghost use Rattle.vr_json.specs.declared.fault.ReadFail.TheVariants.{NoMemory as NoMemoryFail};

use crate::Place;
use std::alloc::{AllocError, Global};
use vr_model::{NoMemory, Text};

/// The cause of a refusal.
#[derive(Clone, Copy, Debug, PartialEq, Eq)]
pub enum Cause {
    /// A required field is absent.
    Absent,
    /// The value is of another kind than stated.
    OtherKind,
    /// The number is not written as a whole one (`5.0` and `5e0` are not), is written `-0`, or is outside `i64`.
    NotWhole,
    /// A field has a name that its object does not know.
    UnknownKey,
    /// A whole number lies outside its range.
    OutOfRange,
    /// An array or a string has another length than stated.
    WrongLength,
    /// A value is one that it must differ from: an earlier entry, or the pickup of a delivery.
    Repeated,
    /// A string is none of the stated words.
    UnknownWord,
    /// A node that must be a visit is a start or an end.
    NotAVisit,
    /// The lower end of an interval lies above its upper end, or a break's `from` above its `to`.
    Reversed,
    /// The cost matrix of a vehicle has a negative entry.
    NegativeCost,
    /// A matrix that a dimension uses has an entry that is too large for it.
    LargeTransit,
    /// A dimension with breaks or span costs has a negative transit of a vehicle between two different nodes.
    NegativeTransit,
    /// The first solution is to be built by savings, but the vehicles differ or rows of allowed vehicles are there.
    UnlikeVehicles,
}

impl Cause {
    /// The number of this cause in the texts of the program, 10 to 23.
    pub fn code(self) -> u8
        ensures { result ≡ code_of self }
    {
        match self {
            Cause::Absent => 10,
            Cause::OtherKind => 11,
            Cause::NotWhole => 12,
            Cause::UnknownKey => 13,
            Cause::OutOfRange => 14,
            Cause::WrongLength => 15,
            Cause::Repeated => 16,
            Cause::UnknownWord => 17,
            Cause::NotAVisit => 18,
            Cause::Reversed => 19,
            Cause::NegativeCost => 20,
            Cause::LargeTransit => 21,
            Cause::NegativeTransit => 22,
            Cause::UnlikeVehicles => 23,
        }
    }
}

/// A refusal: the number of what is wrong, and the path of the value, line or file that is refused. What is wrong is a
/// [`Cause`], or a flaw of `vr_tsplib`.
#[derive(Drop)]
pub struct Fault {
    pub code: u8,
    pub path: Text,
}

/// Why a reading gives no value.
#[derive(Drop)]
pub enum ReadFail {
    /// The value or file is refused.
    Refused(Fault),
    /// Memory ran out.
    NoMemory,
}

impl From<NoMemory> for ReadFail {
    ghost from_gives = { λ _ e. e ≡ NoMemoryFail };

    fn from(_: NoMemory) -> Self {
        ReadFail::NoMemory
    }
}

impl From<AllocError> for ReadFail {
    ghost from_gives = { λ _ e. e ≡ NoMemoryFail };

    fn from(_: AllocError) -> Self {
        ReadFail::NoMemory
    }
}

/// The refusal of the value at a place; `NoMemory` if there is none for the path of the place.
pub fn refusal(alloc: Global, cause: Cause, place: Place<'_>) -> ReadFail
    ensures { Refuses cause (place_path place.entry) result }
{
    match fault_of(alloc, cause, place) {
        Ok(fault) => ReadFail::Refused(fault),
        Err(_) => ReadFail::NoMemory,
    }
}

// The fault of a cause at a place.
fn fault_of(alloc: Global, cause: Cause, place: Place<'_>) -> Result<Fault, NoMemory>
    ensures { IfOk result (λ fault. fault ≡ fault_at cause (place_path place.entry)) }
{
    let path = place.path()?;
    Ok(Fault {
        code: cause.code(),
        path: Text::from_str(alloc, path.as_str())?,
    })
}
