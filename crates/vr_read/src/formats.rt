//! The format of a model: the first one, and the one in which a vehicle may choose its rule of schedules.

ghost use Rattle.std.specs.Prelude.{◌≡◌};
ghost use Rattle.vr_read.specs.Formats as formats;

use vr_json::{Count, Datum, ReadFail, Reader};

/// The format of a model: which fields its tables have.
#[derive(Clone, Copy)]
pub enum Format {
    /// Format 1: a vehicle has no field `schedule`, and each chooses its earliest schedules.
    One,
    /// Format 2: a vehicle may have the field `schedule`.
    Two,
}

/// A format by its number, 1 or 2.
#[derive(Clone, Copy)]
pub struct FormatNumber;

// The format of a number.
fn format_of(number: u32) -> Format
    ensures { result ≡ formats.format_of number }
{
    if number == 1 {
        Format::One
    } else {
        Format::Two
    }
}

impl Reader for FormatNumber {
    type Item = Format;

    ghost reads = { λ it earlier path d. formats.format path d };

    fn read(&self, _earlier: &[Self::Item], datum: Datum<'_, '_>) -> Result<Self::Item, ReadFail> {
        let number = Count { lo: 1, hi: 2 }.read(&[], datum)?;
        Ok(format_of(number))
    }
}
