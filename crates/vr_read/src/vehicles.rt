//! The table of vehicles, and visits.

ghost use Rattle.std.specs.Prelude.{◌≡◌};
ghost use Rattle.serde_json.specs.View.{view};
ghost use Rattle.vr_json.specs.Reading.{Answers, known};
ghost use Rattle.vr_read.specs.Vehicles as vehicle_tables;

use crate::Format;
use vr_json::{Below, Cause, Choice, Datum, Fields, ReadFail, Reader, Table, Whole};
use vr_model::limits::GREATEST_COST;
use vr_model::{Policy, ScheduleRule, Vehicle};

/// A vehicle, in a model of this format and of this many nodes and matrices.
#[derive(Clone, Copy)]
pub struct VehicleTable {
    pub format: Format,
    pub nodes: u32,
    pub matrices: u32,
}

// The words for policies.
const POLICIES: [(&str, Policy); 3] = [
    ("any", Policy::Any),
    ("lifo", Policy::Lifo),
    ("fifo", Policy::Fifo),
];

// The words for rules of schedules.
const SCHEDULE_RULES: [(&str, ScheduleRule); 2] = [
    ("earliest", ScheduleRule::Earliest),
    ("tight", ScheduleRule::Tight),
];

impl VehicleTable {
    // The nodes at which the vehicle starts and ends.
    #[tactic(auto, unfolding(vr_json::specs::Reading::and_then, crate::specs::Vehicles::ends))]
    fn ends(&self, fields: Fields<'_, '_>) -> Result<(u32, u32), ReadFail>
        ensures { Answers result
            (vehicle_tables.ends self.now.nodes fields.entry.path.now (view fields.entry.value.now)) }
    {
        let node = Below { count: self.nodes };
        let start = fields.required("start", &node)?;
        let end = fields.required("end", &node)?;
        Ok((start, end))
    }

    // By which rule the vehicle chooses its schedules: the earliest if the field is absent. Format 1 has no such field,
    // and does not look for it here: `keep_fields` refuses it.
    fn schedule(&self, fields: Fields<'_, '_>) -> Result<ScheduleRule, ReadFail>
        ensures { Answers result
            (vehicle_tables.schedule self.now.format fields.entry.path.now (view fields.entry.value.now)) }
    {
        match self.format {
            Format::One => Ok(ScheduleRule::Earliest),
            Format::Two => {
                let rule = Choice {
                    words: &SCHEDULE_RULES,
                };
                fields.optional("schedule", ScheduleRule::Earliest, &rule)
            }
        }
    }

    // Refuses a vehicle with a field that the format does not have.
    fn keep_fields(&self, fields: Fields<'_, '_>) -> Result<(), ReadFail>
        ensures { Answers result
            (known (vehicle_tables.fields self.now.format) fields.entry.path.now (view fields.entry.value.now)) }
    {
        match self.format {
            Format::One => fields.known(&["start", "end", "costs", "fixed", "policy"]),
            Format::Two => {
                fields.known(&["start", "end", "costs", "fixed", "policy", "schedule"])
            }
        }
    }
}

#[tactic(auto, unfolding(vr_json::specs::Reading::and_then, crate::specs::Vehicles::vehicle))]
impl Table for VehicleTable {
    type Row = Vehicle;

    ghost reads = { λ it earlier path d. vehicle_tables.vehicle it.format it.nodes it.matrices path d };

    fn read(&self, _earlier: &[Self::Row], fields: Fields<'_, '_>) -> Result<Self::Row, ReadFail> {
        let matrix = Below {
            count: self.matrices,
        };
        let cost = Whole {
            lo: 0,
            hi: GREATEST_COST,
        };
        let ends = self.ends(fields)?;
        let costs = fields.optional("costs", 0, &matrix)?;
        let fixed = fields.optional("fixed", 0, &cost)?;
        let policy = Choice { words: &POLICIES };
        let policy = fields.optional("policy", Policy::Any, &policy)?;
        let schedule = self.schedule(fields)?;
        self.keep_fields(fields)?;
        Ok(Vehicle {
            start: ends.0,
            end: ends.1,
            costs,
            fixed,
            policy,
            schedule,
        })
    }
}

/// Reads a visit: a node that no vehicle starts or ends at.
#[derive(Clone, Copy)]
pub struct Visit<'a> {
    pub nodes: u32,
    pub vehicles: &'a [Vehicle],
}

// Whether a node is the start or the end of some vehicle.
fn is_terminal(vehicles: &[Vehicle], node: u32) -> bool
    ensures { result ≡ vehicle_tables.is_terminal vehicles.now node }
{
    vehicles
        .iter()
        .any(|vehicle| vehicle.starts_or_ends_at(node))
}

#[tactic(auto, unfolding(vr_json::specs::Reading::and_then, crate::specs::Vehicles::visit))]
impl Reader for Visit<'_> {
    type Item = u32;

    ghost reads = { λ it earlier path d. vehicle_tables.visit it.nodes it.vehicles.now path d };

    fn read(&self, _earlier: &[Self::Item], datum: Datum<'_, '_>) -> Result<Self::Item, ReadFail> {
        let node = Below { count: self.nodes }.read(&[], datum)?;
        datum.refuse_if(is_terminal(self.vehicles, node), Cause::NotAVisit)?;
        Ok(node)
    }
}
