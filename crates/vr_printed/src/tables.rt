//! The tables of a printed solution: each reads the fields of an object into a record.

ghost use Rattle.vr_printed.specs.Tables as tables;

use crate::{Printed, PrintedPlan, PrintedRoute};
use vr_json::{Array, Below, Choice, Fields, Object, ReadFail, Table, TextOf, Whole};
use vr_model::Parts;

/// A plan of a route in a dimension.
#[derive(Clone, Copy)]
pub struct PlanTable;

/// A route, in a model of `nodes` nodes.
#[derive(Clone, Copy)]
pub struct RouteTable {
    pub nodes: u32,
}

/// The parts of a cost.
#[derive(Clone, Copy)]
pub struct PartsTable;

/// A solution, in a model of `nodes` nodes. Of its fields `status` and `stop` the word is asked, and not kept.
#[derive(Clone, Copy)]
pub struct SolutionTable {
    pub nodes: u32,
}

// Any whole number of 64 bits. The rules of the check say what it has to be.
const ANY_WHOLE: Whole = Whole {
    lo: i64::MIN,
    hi: i64::MAX,
};

// An array of such numbers.
const NUMBERS: Array<Whole> = Array {
    lo: 0,
    hi: usize::MAX,
    entry: ANY_WHOLE,
};

// A string of any length.
const ANY_TEXT: TextOf = TextOf {
    lo: 0,
    hi: usize::MAX,
};

#[tactic(auto, unfolding(vr_json::specs::Reading::and_then, crate::specs::Tables::plan))]
impl Table for PlanTable {
    type Row = PrintedPlan;

    ghost reads = { λ it earlier path d. tables.plan path d };

    fn read(&self, _earlier: &[Self::Row], fields: Fields<'_, '_>) -> Result<Self::Row, ReadFail> {
        let breaks = fields.required("breaks", &NUMBERS)?;
        let cumuls = fields.required("cumuls", &NUMBERS)?;
        let name = fields.required("name", &ANY_TEXT)?;
        let slacks = fields.required("slacks", &NUMBERS)?;
        fields.known(&["breaks", "cumuls", "name", "slacks"])?;
        Ok(PrintedPlan {
            name,
            cumuls,
            slacks,
            breaks,
        })
    }
}

#[tactic(auto, unfolding(vr_json::specs::Reading::and_then, crate::specs::Tables::printed_route))]
impl Table for RouteTable {
    type Row = PrintedRoute;

    ghost reads = { λ it earlier path d. tables.printed_route it.nodes path d };

    fn read(&self, _earlier: &[Self::Row], fields: Fields<'_, '_>) -> Result<Self::Row, ReadFail> {
        let table = Array {
            lo: 0,
            hi: usize::MAX,
            entry: Object(PlanTable),
        };
        let numbers = Array {
            lo: 0,
            hi: usize::MAX,
            entry: Below { count: self.nodes },
        };
        let plans = fields.required("dimensions", &table)?;
        let nodes = fields.required("nodes", &numbers)?;
        let vehicle = fields.required("vehicle", &ANY_WHOLE)?;
        fields.known(&["dimensions", "nodes", "vehicle"])?;
        Ok(PrintedRoute {
            vehicle,
            nodes,
            plans,
        })
    }
}

#[tactic(auto, unfolding(vr_json::specs::Reading::and_then, crate::specs::Tables::printed_parts))]
impl Table for PartsTable {
    type Row = Parts;

    ghost reads = { λ it earlier path d. tables.printed_parts path d };

    fn read(&self, _earlier: &[Self::Row], fields: Fields<'_, '_>) -> Result<Self::Row, ReadFail> {
        let arcs = fields.required("arcs", &ANY_WHOLE)?;
        let fixed = fields.required("fixed", &ANY_WHOLE)?;
        let global = fields.required("global", &ANY_WHOLE)?;
        let penalty = fields.required("penalty", &ANY_WHOLE)?;
        let soft = fields.required("soft", &ANY_WHOLE)?;
        let span = fields.required("span", &ANY_WHOLE)?;
        fields.known(&["arcs", "fixed", "global", "penalty", "soft", "span"])?;
        Ok(Parts {
            arcs,
            fixed,
            global,
            penalty,
            soft,
            span,
        })
    }
}

// The fields of a solution.
const FIELDS: [&str; 9] = [
    "cost",
    "dropped",
    "first_cost",
    "parts",
    "routes",
    "solutions",
    "status",
    "stop",
    "tries",
];

#[tactic(auto, unfolding(vr_json::specs::Reading::and_then, crate::specs::Tables::solution))]
impl Table for SolutionTable {
    type Row = Printed;

    ghost reads = { λ it earlier path d. tables.solution it.nodes path d };

    fn read(&self, _earlier: &[Self::Row], fields: Fields<'_, '_>) -> Result<Self::Row, ReadFail> {
        let node = Below { count: self.nodes };
        let numbers = Array {
            lo: 0,
            hi: usize::MAX,
            entry: node,
        };
        let table = Array {
            lo: 0,
            hi: usize::MAX,
            entry: Object(RouteTable { nodes: self.nodes }),
        };
        let statuses = [("ROUTING_SUCCESS", ())];
        let stops = [
            ("first", ()),
            ("optimum", ()),
            ("tries", ()),
            ("solutions", ()),
        ];
        let status = Choice { words: &statuses };
        let stop = Choice { words: &stops };
        let cost = fields.required("cost", &ANY_WHOLE)?;
        let dropped = fields.required("dropped", &numbers)?;
        let first_cost = fields.required("first_cost", &ANY_WHOLE)?;
        let parts = fields.required("parts", &Object(PartsTable))?;
        let routes = fields.required("routes", &table)?;
        let solutions = fields.required("solutions", &ANY_WHOLE)?;
        fields.required("status", &status)?;
        fields.required("stop", &stop)?;
        let tries = fields.required("tries", &ANY_WHOLE)?;
        fields.known(&FIELDS)?;
        Ok(Printed {
            cost,
            dropped,
            first_cost,
            parts,
            routes,
            solutions,
            tries,
        })
    }
}
