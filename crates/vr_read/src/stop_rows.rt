//! The tables of stop rows and breaks.

ghost use Rattle.std.specs.Prelude.{◌≡◌, ◌==◌, []};
ghost use Rattle.std.specs.List.{list_any};
ghost use Rattle.serde_json.specs.View.{view};
ghost use Rattle.vr_json.specs.Reading.{Answers};
ghost use Rattle.vr_read.specs.StopRows as stop_tables;

use vr_json::{
    Array, Below, Cause, Datum, Fields, Object, ReadFail, Reader, Table, TwoEntries, Whole,
    refuse_if,
};
use vr_model::limits::{GREATEST_COEFFICIENT, HORIZON, MOST_BREAKS, MOST_FORBIDDEN};
use vr_model::{BreakRow, Interval, Seq, Soft, StopRow, VehicleBreaks};

// A cumul.
const CUMUL: Whole = Whole { lo: 0, hi: HORIZON };

/// An interval: an array of two cumuls, the lower one first.
#[derive(Clone, Copy)]
pub struct IntervalTable;

/// A soft upper bound.
#[derive(Clone, Copy)]
pub struct SoftTable;

/// A row for a stop, whose key is in the field that `name` names: `node` of a visit, `vehicle` of a start or an end.
#[derive(Clone, Copy)]
pub struct StopTable<'a, K> {
    pub name: &'a str,
    pub key: K,
}

/// A break: a start range and a duration.
#[derive(Clone, Copy)]
pub struct BreakTable;

/// The breaks of one of this many vehicles.
#[derive(Clone, Copy)]
pub struct VehicleBreaksTable {
    pub vehicles: u32,
}

#[tactic(auto, unfolding(vr_json::specs::Reading::and_then, crate::specs::StopRows::interval))]
impl Reader for IntervalTable {
    type Item = Interval;

    ghost reads = { λ it earlier path d. stop_tables.interval path d };

    fn read(&self, _earlier: &[Self::Item], datum: Datum<'_, '_>) -> Result<Self::Item, ReadFail> {
        let ends = TwoEntries { entry: CUMUL }.read(&[], datum)?;
        datum.refuse_if(ends.1 < ends.0, Cause::Reversed)?;
        Ok(Interval {
            lo: ends.0,
            hi: ends.1,
        })
    }
}

#[tactic(auto, unfolding(vr_json::specs::Reading::and_then, crate::specs::StopRows::soft))]
impl Table for SoftTable {
    type Row = Soft;

    ghost reads = { λ it earlier path d. stop_tables.soft path d };

    fn read(&self, _earlier: &[Self::Row], fields: Fields<'_, '_>) -> Result<Self::Row, ReadFail> {
        let cost = Whole {
            lo: 0,
            hi: GREATEST_COEFFICIENT,
        };
        let bound = fields.required("bound", &CUMUL)?;
        let coefficient = fields.required("coefficient", &cost)?;
        fields.known(&["bound", "coefficient"])?;
        Ok(Soft { bound, coefficient })
    }
}

// What a row says of a stop, but for its key.
#[derive(Drop)]
pub struct StopLimits {
    pub window: Option<Interval>,
    pub forbidden: Seq<Interval>,
    pub soft: Option<Soft>,
}

// The window, the forbidden intervals and the soft bound of a row.
#[tactic(auto, unfolding(vr_json::specs::Reading::and_then, crate::specs::StopRows::limits))]
fn limits(fields: Fields<'_, '_>) -> Result<StopLimits, ReadFail>
    ensures { Answers result (stop_tables.limits fields.entry.path.now (view fields.entry.value.now)) }
{
    let intervals = Array {
        lo: 0,
        hi: MOST_FORBIDDEN as usize,
        entry: IntervalTable,
    };
    let window = fields.maybe("window", &IntervalTable)?;
    let forbidden = fields.optional_array("forbidden", &intervals)?;
    let soft = fields.maybe("soft", &Object(SoftTable))?;
    Ok(StopLimits {
        window,
        forbidden,
        soft,
    })
}

// Whether some row has this key.
fn has_row(rows: &[StopRow], key: u32) -> bool
    ensures { result ≡ list_any (λ row. row.key == key) rows.now }
{
    rows.iter().any(|row| row.key == key)
}

#[tactic(auto, unfolding(vr_json::specs::Reading::and_then, crate::specs::StopRows::stop_row))]
impl<K: Reader<Item = u32>> Table for StopTable<'_, K> {
    type Row = StopRow;

    ghost reads = { λ it earlier path d. stop_tables.stop_row it.name.now (K.reads it.key []) earlier path d };

    fn read(&self, earlier: &[Self::Row], fields: Fields<'_, '_>) -> Result<Self::Row, ReadFail> {
        let key = fields.required(self.name, &self.key)?;
        fields.refuse_if(has_row(earlier, key), Cause::Repeated, self.name)?;
        let limits = limits(fields)?;
        fields.known(&[self.name, "window", "forbidden", "soft"])?;
        Ok(StopRow {
            key,
            window: limits.window,
            forbidden: limits.forbidden,
            soft: limits.soft,
        })
    }
}

#[tactic(auto, unfolding(vr_json::specs::Reading::and_then, crate::specs::StopRows::break_row))]
impl Table for BreakTable {
    type Row = BreakRow;

    ghost reads = { λ it earlier path d. stop_tables.break_row path d };

    fn read(&self, _earlier: &[Self::Row], fields: Fields<'_, '_>) -> Result<Self::Row, ReadFail> {
        let length = Whole { lo: 1, hi: HORIZON };
        let from = fields.required("from", &CUMUL)?;
        let to = fields.required("to", &CUMUL)?;
        let duration = fields.required("duration", &length)?;
        fields.known(&["from", "to", "duration"])?;
        // this fault lies at the break as a whole, and comes after those of its fields
        refuse_if(fields.alloc, to < from, Cause::Reversed, fields.path.here())?;
        Ok(BreakRow { from, to, duration })
    }
}

// Whether some entry is of this vehicle.
fn has_breaks(entries: &[VehicleBreaks], vehicle: u32) -> bool
    ensures { result ≡ list_any (λ entry. entry.vehicle == vehicle) entries.now }
{
    entries.iter().any(|entry| entry.vehicle == vehicle)
}

#[tactic(auto, unfolding(vr_json::specs::Reading::and_then, crate::specs::StopRows::vehicle_breaks))]
impl Table for VehicleBreaksTable {
    type Row = VehicleBreaks;

    ghost reads = { λ it earlier path d. stop_tables.vehicle_breaks it.vehicles earlier path d };

    fn read(&self, earlier: &[Self::Row], fields: Fields<'_, '_>) -> Result<Self::Row, ReadFail> {
        let number = Below {
            count: self.vehicles,
        };
        let breaks = Array {
            lo: 1,
            hi: MOST_BREAKS as usize,
            entry: Object(BreakTable),
        };
        let vehicle = fields.required("vehicle", &number)?;
        fields.refuse_if(has_breaks(earlier, vehicle), Cause::Repeated, "vehicle")?;
        let rows = fields.required("breaks", &breaks)?;
        fields.known(&["vehicle", "breaks"])?;
        Ok(VehicleBreaks { vehicle, rows })
    }
}
