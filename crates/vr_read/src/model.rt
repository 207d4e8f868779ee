//! Reads a model: its fields in order, and then the rules on the whole.

ghost use Rattle.std.specs.Prelude.{IfOk};
ghost use Rattle.serde_json.specs.View.{view};
ghost use Rattle.vr_json.specs.Reading.{Answers};
ghost use Rattle.vr_model.specs.tables.WellFormed.{IsWellFormed};
ghost use Rattle.vr_read.specs.Models as models;

use crate::matrices::MatrixTable;
use crate::model_rules::keep_rules;
use crate::searches::default_search;
use crate::tabled::Tabled;
use crate::{
    AllowedTable, DimensionTable, FormatNumber, GroupTable, PairTable, SearchTable, VehicleTable,
    Visit,
};
use serde_json::Value;
use std::alloc::Global;
use vr_json::{Array, Count, Fields, Object, Path, ReadFail};
use vr_model::limits::{
    MOST_DIMENSIONS, MOST_GROUPS, MOST_MATRICES, MOST_NODES, MOST_PAIRS, MOST_VEHICLES,
};
use vr_model::{Allowed, Dimension, Group, Matrix, Model, Pair, SearchRow, Seq, Vehicle};

// The fields of a model up to its vehicles, but for the format, which their table alone asks.
#[derive(Drop)]
pub struct ModelBase {
    pub nodes: u32,
    pub matrices: Seq<Matrix>,
    pub vehicles: Seq<Vehicle>,
}

// The tables of visits.
#[derive(Drop)]
pub struct VisitTables {
    pub groups: Seq<Group>,
    pub pairs: Seq<Pair>,
    pub allowed: Seq<Allowed>,
}

// The fields of a model from its dimensions on.
#[derive(Drop)]
pub struct ModelParts {
    pub dimensions: Seq<Dimension>,
    pub tables: VisitTables,
    pub search: SearchRow,
}

// Reads the groups, pairs and allowed rows of a model of this many vehicles. `visit` reads a node, and refuses starts
// and ends.
#[tactic(auto, unfolding(vr_json::specs::Reading::and_then, crate::specs::Models::visit_tables))]
fn read_visit_tables(
    fields: Fields<'_, '_>,
    visit: Visit<'_>,
    fleet: u32,
) -> Result<VisitTables, ReadFail>
    ensures { Answers result (models.visit_tables visit.entry.nodes fleet visit.entry.vehicles.now
        fields.entry.path.now (view fields.entry.value.now)) }
{
    let table = Array {
        lo: 0,
        hi: MOST_GROUPS as usize,
        entry: Object(GroupTable { visit }),
    };
    let groups = fields.optional_array("groups", &table)?;
    let table = Array {
        lo: 0,
        hi: MOST_PAIRS as usize,
        entry: Object(PairTable { visit }),
    };
    let pairs = fields.optional_array("pairs", &table)?;
    let table = Array {
        lo: 0,
        hi: MOST_NODES as usize,
        entry: Object(AllowedTable { visit, fleet }),
    };
    let allowed = fields.optional_array("allowed", &table)?;
    Ok(VisitTables {
        groups,
        pairs,
        allowed,
    })
}

// The fields of a model from its dimensions on. The model has this many nodes and matrices, and these vehicles, whose
// number is `table.fleet`.
#[tactic(auto, unfolding(vr_json::specs::Reading::and_then, crate::specs::Models::parts))]
fn read_parts(fields: Fields<'_, '_>, table: DimensionTable<'_>) -> Result<ModelParts, ReadFail>
    ensures { Answers result
        (models.parts table.entry.nodes table.entry.matrices table.entry.fleet table.entry.vehicles.now
        fields.entry.path.now (view fields.entry.value.now)) }
{
    let visit = Visit {
        nodes: table.nodes,
        vehicles: table.vehicles,
    };
    let fleet = table.fleet;
    let table = Array {
        lo: 0,
        hi: MOST_DIMENSIONS as usize,
        entry: Object(table),
    };
    let dimensions = fields.optional_array("dimensions", &table)?;
    let tables = read_visit_tables(fields, visit, fleet)?;
    let usual = default_search(fields.alloc)?;
    let search = fields.optional("search", usual, &Object(SearchTable))?;
    Ok(ModelParts {
        dimensions,
        tables,
        search,
    })
}

// The fields of a model up to its vehicles.
#[tactic(auto, unfolding(vr_json::specs::Reading::and_then, crate::specs::Models::base))]
fn read_base(fields: Fields<'_, '_>) -> Result<ModelBase, ReadFail>
    ensures { Answers result (models.base fields.entry.path.now (view fields.entry.value.now)) }
{
    let format = fields.required("format", &FormatNumber)?;
    let number = Count {
        lo: 1,
        hi: MOST_NODES,
    };
    let nodes = fields.required("nodes", &number)?;
    let table = Array {
        lo: 1,
        hi: MOST_MATRICES as usize,
        entry: MatrixTable { nodes },
    };
    let matrices = fields.required("matrices", &table)?;
    let count = matrices.len() as u32;
    let table = Array {
        lo: 1,
        hi: MOST_VEHICLES as usize,
        entry: Object(VehicleTable {
            format,
            nodes,
            matrices: count,
        }),
    };
    let vehicles = fields.required("vehicles", &table)?;
    Ok(ModelBase {
        nodes,
        matrices,
        vehicles,
    })
}

// The table of a model, without the rules on the whole model.
fn read_table(fields: Fields<'_, '_>) -> Result<Model, ReadFail>
    ensures { Answers result (models.model_table fields.entry.path.now (view fields.entry.value.now)) }
{
    let base = read_base(fields)?;
    let matrices = base.matrices.len() as u32;
    let fleet = base.vehicles.len() as u32;
    let vehicles = base.vehicles.as_slice();
    let table = DimensionTable {
        nodes: base.nodes,
        matrices,
        fleet,
        vehicles,
    };
    let parts = read_parts(fields, table)?;
    fields.known(&FIELDS)?;
    Ok(Model {
        nodes: base.nodes,
        matrices: base.matrices,
        vehicles: base.vehicles,
        dimensions: parts.dimensions,
        groups: parts.tables.groups,
        pairs: parts.tables.pairs,
        allowed: parts.tables.allowed,
        search: parts.search,
    })
}

/// The model at a path (`RoutingModel` in OR-Tools): its table, and then the rules on the whole model.
///
/// Refused with the first fault, in the order of the table: each field in turn, absent or read. Then come a field that
/// the table does not name, and the faults of the rules: `NegativeCost`, `LargeTransit`, `NegativeTransit`,
/// `UnlikeVehicles`. A model that is given is well formed.
pub fn read_model(alloc: Global, value: &Value, path: &Path) -> Result<Model, ReadFail>
    ensures found { Answers result (models.read_model path.now (view value.now)) }
    ensures well_formed { IfOk result IsWellFormed }
{
    let model = read_table(Fields { alloc, value, path })?;
    let tabled = Tabled { model: &model };
    keep_rules(alloc, tabled, path)?;
    Ok(model)
}

// The fields of a model.
const FIELDS: [&str; 9] = [
    "format",
    "nodes",
    "matrices",
    "vehicles",
    "dimensions",
    "groups",
    "pairs",
    "allowed",
    "search",
];
