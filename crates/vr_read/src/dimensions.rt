//! The table of dimensions.

ghost use Rattle.std.specs.Prelude.{◌≡◌};
ghost use Rattle.std.specs.List.{list_any};
ghost use Rattle.std.specs.Str.{bytes_eq};
ghost use Rattle.serde_json.specs.View.{view};
ghost use Rattle.vr_json.specs.Reading.{Answers};
ghost use Rattle.vr_read.specs.Dimensions as dimension_tables;

use crate::{StopTable, VehicleBreaksTable, Visit};
use vr_json::{
    Array, Below, Cause, Datum, Fields, Flag, ForEach, Object, ReadFail, Reader, Table, TextOf,
    Whole, copies,
};
use vr_model::limits::{
    GREATEST_COEFFICIENT, GREATEST_VALUE, HORIZON, LEAST_VALUE, MOST_EVALUATORS, MOST_NAME_BYTES,
    MOST_NODES, MOST_VEHICLES,
};
use vr_model::{Dimension, Evaluator, Seq, StopRow, Text, Vehicle, VehicleBreaks};

/// An evaluator, in a model of this many nodes and matrices. Both of its fields may be absent. Values that are there
/// are one for each node, so an empty array is refused.
#[derive(Clone, Copy)]
pub struct EvaluatorTable {
    pub nodes: u32,
    pub matrices: u32,
}

/// A whole number that is not negative; above the horizon it is read as the horizon.
#[derive(Clone, Copy)]
pub struct Capped;

/// The name of a dimension, which no earlier one has. These are handed in, since the reader of a field knows of none.
#[derive(Clone, Copy)]
pub struct Name<'a> {
    pub earlier: &'a [Dimension],
}

/// A dimension, in a model of this many nodes, matrices and vehicles.
#[derive(Clone, Copy)]
pub struct DimensionTable<'a> {
    pub nodes: u32,
    pub matrices: u32,
    /// The number of `vehicles`.
    pub fleet: u32,
    pub vehicles: &'a [Vehicle],
}

#[tactic(auto, unfolding(vr_json::specs::Reading::and_then, crate::specs::Dimensions::evaluator))]
impl Table for EvaluatorTable {
    type Row = Evaluator;

    ghost reads = { λ it earlier path d. dimension_tables.evaluator it.nodes it.matrices path d };

    fn read(&self, _earlier: &[Self::Row], fields: Fields<'_, '_>) -> Result<Self::Row, ReadFail> {
        let number = Below {
            count: self.matrices,
        };
        let numbers = Array {
            lo: self.nodes as usize,
            hi: self.nodes as usize,
            entry: Whole {
                lo: LEAST_VALUE,
                hi: GREATEST_VALUE,
            },
        };
        let matrix = fields.maybe("matrix", &number)?;
        let values = fields.optional_array("values", &numbers)?;
        fields.known(&["matrix", "values"])?;
        Ok(Evaluator { matrix, values })
    }
}

#[tactic(auto, unfolding(vr_json::specs::Reading::and_then, crate::specs::Dimensions::capped))]
impl Reader for Capped {
    type Item = i64;

    ghost reads = { λ it earlier path d. dimension_tables.capped path d };

    fn read(&self, _earlier: &[Self::Item], datum: Datum<'_, '_>) -> Result<Self::Item, ReadFail> {
        let any = Whole {
            lo: 0,
            hi: i64::MAX,
        };
        let number = any.read(&[], datum)?;
        Ok(if HORIZON < number { HORIZON } else { number })
    }
}

// Whether some dimension has this name.
fn has_name(dimensions: &[Dimension], name: &Text) -> bool
    ensures { result ≡ list_any (λ dimension. bytes_eq dimension.name name.now) dimensions.now }
{
    dimensions
        .iter()
        .any(|dimension| dimension.name.as_str() == name.as_str())
}

#[tactic(auto, unfolding(vr_json::specs::Reading::and_then, crate::specs::Dimensions::name))]
impl Reader for Name<'_> {
    type Item = Text;

    ghost reads = { λ it earlier path d. dimension_tables.name it.earlier.now path d };

    fn read(&self, _earlier: &[Self::Item], datum: Datum<'_, '_>) -> Result<Self::Item, ReadFail> {
        let text = TextOf {
            lo: 1,
            hi: MOST_NAME_BYTES as usize,
        };
        let name = text.read(&[], datum)?;
        datum.refuse_if(has_name(self.earlier, &name), Cause::Repeated)?;
        Ok(name)
    }
}

/// The evaluators of a dimension, and the number of each vehicle's one.
#[derive(Drop)]
pub struct Transits {
    pub evaluators: Seq<Evaluator>,
    pub vehicle_evaluators: Seq<u32>,
}

/// The bounds of slacks and cumuls, and the visit times.
#[derive(Drop)]
pub struct DimensionBounds {
    pub slack_max: i64,
    pub capacities: Seq<i64>,
    pub fix_start: bool,
    pub visit: Seq<i64>,
}

/// The rows of stops, and the breaks.
#[derive(Drop)]
pub struct DimensionRows {
    /// Of visits, by node.
    pub nodes: Seq<StopRow>,
    /// Of starts and of ends, by vehicle.
    pub starts: Seq<StopRow>,
    pub ends: Seq<StopRow>,
    pub breaks: Seq<VehicleBreaks>,
}

/// The coefficients of spans: of each vehicle, and of all together.
#[derive(Drop)]
pub struct SpanCosts {
    pub by_vehicle: Seq<i64>,
    pub global: i64,
}

impl DimensionTable<'_> {
    // The evaluators.
    fn transits(&self, fields: Fields<'_, '_>) -> Result<Transits, ReadFail>
        ensures { Answers result (dimension_tables.transits self.now.nodes self.now.matrices self.now.fleet
            fields.entry.path.now (view fields.entry.value.now)) }
    {
        let evaluators = Array {
            lo: 1,
            hi: MOST_EVALUATORS as usize,
            entry: Object(EvaluatorTable {
                nodes: self.nodes,
                matrices: self.matrices,
            }),
        };
        let evaluators = fields.required("evaluators", &evaluators)?;
        let count = evaluators.len() as u32;
        let numbers = Array {
            lo: self.fleet as usize,
            hi: self.fleet as usize,
            entry: Below { count },
        };
        let zeros = copies(fields.alloc, 0, self.fleet as usize)?;
        let vehicle_evaluators = fields.optional("vehicle_evaluators", zeros, &numbers)?;
        Ok(Transits {
            evaluators,
            vehicle_evaluators,
        })
    }

    // The bounds and visit times.
    #[tactic(auto, unfolding(vr_json::specs::Reading::and_then, crate::specs::Dimensions::bounds))]
    fn bounds(&self, fields: Fields<'_, '_>) -> Result<DimensionBounds, ReadFail>
        ensures { Answers result (dimension_tables.bounds self.now.nodes self.now.fleet
            fields.entry.path.now (view fields.entry.value.now)) }
    {
        let by_vehicle = ForEach {
            count: self.fleet as usize,
            entry: Capped,
        };
        let times = Array {
            lo: self.nodes as usize,
            hi: self.nodes as usize,
            entry: Whole {
                lo: 0,
                hi: GREATEST_VALUE,
            },
        };
        let slack_max = fields.required("slack_max", &Capped)?;
        let capacities = fields.required("capacity", &by_vehicle)?;
        let fix_start = fields.optional("fix_start", false, &Flag)?;
        let zeros = copies(fields.alloc, 0i64, self.nodes as usize)?;
        let visit = fields.optional("visit", zeros, &times)?;
        Ok(DimensionBounds {
            slack_max,
            capacities,
            fix_start,
            visit,
        })
    }

    // The rows of starts or of ends, in the field that `name` names.
    fn vehicle_rows(&self, fields: Fields<'_, '_>, name: &str) -> Result<Seq<StopRow>, ReadFail>
        ensures { Answers result (dimension_tables.vehicle_rows name.now self.now.fleet
            fields.entry.path.now (view fields.entry.value.now)) }
    {
        let key = Below { count: self.fleet };
        let rows = Array {
            lo: 0,
            hi: MOST_VEHICLES as usize,
            entry: Object(StopTable {
                name: "vehicle",
                key,
            }),
        };
        fields.optional_array(name, &rows)
    }

    // The rows of stops, and the breaks.
    #[tactic(auto, unfolding(vr_json::specs::Reading::and_then, crate::specs::Dimensions::rows))]
    fn rows(&self, fields: Fields<'_, '_>) -> Result<DimensionRows, ReadFail>
        ensures { Answers result (dimension_tables.rows self.now.nodes self.now.fleet self.now.vehicles.now
            fields.entry.path.now (view fields.entry.value.now)) }
    {
        let key = Visit {
            nodes: self.nodes,
            vehicles: self.vehicles,
        };
        let of_visits = Array {
            lo: 0,
            hi: MOST_NODES as usize,
            entry: Object(StopTable { name: "node", key }),
        };
        let of_breaks = Array {
            lo: 0,
            hi: MOST_VEHICLES as usize,
            entry: Object(VehicleBreaksTable {
                vehicles: self.fleet,
            }),
        };
        let nodes = fields.optional_array("nodes", &of_visits)?;
        let starts = self.vehicle_rows(fields, "starts")?;
        let ends = self.vehicle_rows(fields, "ends")?;
        let breaks = fields.optional_array("breaks", &of_breaks)?;
        Ok(DimensionRows {
            nodes,
            starts,
            ends,
            breaks,
        })
    }

    // The coefficients of spans.
    fn span_costs(&self, fields: Fields<'_, '_>) -> Result<SpanCosts, ReadFail>
        ensures { Answers result
            (dimension_tables.span_costs self.now.fleet fields.entry.path.now (view fields.entry.value.now)) }
    {
        let cost = Whole {
            lo: 0,
            hi: GREATEST_COEFFICIENT,
        };
        let costs = ForEach {
            count: self.fleet as usize,
            entry: cost,
        };
        let zeros = copies(fields.alloc, 0i64, self.fleet as usize)?;
        let by_vehicle = fields.optional("span_cost", zeros, &costs)?;
        let global = fields.optional("global_span_cost", 0, &cost)?;
        Ok(SpanCosts { by_vehicle, global })
    }
}

#[tactic(auto, unfolding(vr_json::specs::Reading::and_then, crate::specs::Dimensions::dimension))]
impl Table for DimensionTable<'_> {
    type Row = Dimension;

    ghost reads = { λ it earlier path d.
        dimension_tables.dimension it.nodes it.matrices it.fleet it.vehicles.now earlier path d };

    fn read(&self, earlier: &[Self::Row], fields: Fields<'_, '_>) -> Result<Self::Row, ReadFail> {
        let name = fields.required("name", &Name { earlier })?;
        let transits = self.transits(fields)?;
        let bounds = self.bounds(fields)?;
        let rows = self.rows(fields)?;
        let span_costs = self.span_costs(fields)?;
        fields.known(&FIELDS)?;
        Ok(Dimension {
            name,
            evaluators: transits.evaluators,
            vehicle_evaluators: transits.vehicle_evaluators,
            slack_max: bounds.slack_max,
            capacities: bounds.capacities,
            fix_start: bounds.fix_start,
            visit: bounds.visit,
            nodes: rows.nodes,
            starts: rows.starts,
            ends: rows.ends,
            breaks: rows.breaks,
            span_costs: span_costs.by_vehicle,
            global_span_cost: span_costs.global,
        })
    }
}

// The fields of a dimension.
const FIELDS: [&str; 13] = [
    "name",
    "evaluators",
    "vehicle_evaluators",
    "slack_max",
    "capacity",
    "fix_start",
    "visit",
    "nodes",
    "starts",
    "ends",
    "breaks",
    "span_cost",
    "global_span_cost",
];
