//! Readers of arrays.

ghost use Rattle.std.specs.Prelude.{◌≡◌, [], map, replicate, IfOk};
ghost use Rattle.serde_json.specs.View.{view};
ghost use Rattle.vr_json.specs.Reading as reading;
ghost use Rattle.vr_json.specs.Places.{place_path};
ghost use Rattle.vr_json.specs.Reading.{Answers};

use crate::fault::refusal;
use crate::kinds::list;
use crate::reader::read_alone;
use crate::{Cause, Datum, Path, ReadFail, Reader};
use serde_json::Value;
use std::alloc::Global;
use vr_model::{NoMemory, Seq};

/// An array of `lo` to `hi` entries.
#[derive(Drop)]
pub struct Array<R> {
    pub lo: usize,
    pub hi: usize,
    pub entry: R,
}

impl<R: Reader> Reader for Array<R> {
    type Item = Seq<R::Item>;

    ghost reads = { λ it earlier path d. reading.array it.lo it.hi (R.reads it.entry) path d };

    fn read(&self, _earlier: &[Self::Item], datum: Datum<'_, '_>) -> Result<Self::Item, ReadFail> {
        array_at(datum, self.lo, self.hi, &self.entry)
    }
}

// The array of `lo` to `hi` entries at a place.
#[tactic(auto, unfolding(crate::specs::Reading::and_then, crate::specs::Reading::array))]
fn array_at<R: Reader>(
    datum: Datum<'_, '_>,
    lo: usize,
    hi: usize,
    entry: &R,
) -> Result<Seq<R::Item>, ReadFail>
    ensures { Answers result
        (reading.array lo hi (R.reads entry.now) (place_path datum.entry.place) (view datum.entry.value.now)) }
{
    let path = datum.place.path()?;
    let values = list(datum.alloc, datum.value, lo, hi, &path)?;
    entries(datum.alloc, entry, values, &path)
}

// What is read of each entry, in order.
#[tactic(auto, unfolding(crate::specs::Reading::and_then, crate::specs::Reading::entries))]
fn entries<R: Reader>(
    alloc: Global,
    reader: &R,
    values: &[Value],
    path: &Path,
) -> Result<Seq<R::Item>, ReadFail>
    ensures { Answers result (reading.entries (R.reads reader.now) [] path.now (map view values.now)) }
{
    let mut found = Seq::new(alloc);
    for (k, value) in values.iter().enumerate() {
        let datum = Datum {
            alloc,
            value,
            place: path.entry(k),
        };
        let entry = reader.read(found.as_slice(), datum)?;
        found.push(entry)?;
    }
    Ok(found)
}

/// An array of two entries, read as a pair. Unlike an entry of `Array`, the second one is not told of the first.
#[derive(Drop)]
pub struct TwoEntries<R> {
    pub entry: R,
}

#[tactic(auto, unfolding(crate::specs::Reading::and_then, crate::specs::Reading::two_entries))]
impl<R: Reader> Reader for TwoEntries<R> {
    type Item = (R::Item, R::Item);

    ghost reads = { λ it earlier path d. reading.two_entries (R.reads it.entry []) path d };

    fn read(&self, _earlier: &[Self::Item], datum: Datum<'_, '_>) -> Result<Self::Item, ReadFail> {
        let path = datum.place.path()?;
        let items = list(datum.alloc, datum.value, 2, 2, &path)?;
        first_two(datum.alloc, &self.entry, items, &path)
    }
}

// What is in an array of two entries. The other arm does not come, since `list` was asked for two.
#[tactic(auto, unfolding(crate::specs::Reading::and_then, crate::specs::Reading::first_two))]
fn first_two<R: Reader>(
    alloc: Global,
    entry: &R,
    items: &[Value],
    path: &Path,
) -> Result<(R::Item, R::Item), ReadFail>
    ensures { Answers result (reading.first_two (R.reads entry.now []) path.now (map view items.now)) }
{
    match items {
        [first, second] => {
            let one = read_alone(alloc, entry, first, path.entry(0))?;
            let other = read_alone(alloc, entry, second, path.entry(1))?;
            Ok((one, other))
        }
        _ => Err(refusal(alloc, Cause::WrongLength, path.here())),
    }
}

/// An array of `count` values, or one value for all.
#[derive(Drop)]
pub struct ForEach<R> {
    pub count: usize,
    pub entry: R,
}

#[tactic(auto, unfolding(crate::specs::Reading::and_then, crate::specs::Reading::for_each))]
impl<R: Reader> Reader for ForEach<R>
where
    R::Item: Copy,
{
    type Item = Seq<R::Item>;

    ghost reads = { λ it earlier path d. reading.for_each it.count (R.reads it.entry) path d };

    fn read(&self, _earlier: &[Self::Item], datum: Datum<'_, '_>) -> Result<Self::Item, ReadFail> {
        if datum.value.is_array() {
            array_at(datum, self.count, self.count, &self.entry)
        } else {
            let item = self.entry.read(&[], datum)?;
            Ok(copies(datum.alloc, item, self.count)?)
        }
    }
}

/// `count` copies of a value: what `ForEach` makes of one value for all, and what `vr_read` takes for an array that is
/// absent.
pub fn copies<T: Copy + Drop>(alloc: Global, value: T, count: usize) -> Result<Seq<T>, NoMemory>
    ensures { IfOk result (λ all. all ≡ replicate count value) }
{
    let mut all = Seq::new(alloc);
    for _k in 0..count {
        all.push(value)?;
    }
    Ok(all)
}
