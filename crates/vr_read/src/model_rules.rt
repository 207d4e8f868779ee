//! The rules on a whole model, asked once its table is read.

ghost use Rattle.std.specs.Prelude.{◌≡◌, ◌<◌, map, length, int_lt, IfOk};
ghost use Rattle.std.specs.List.{All, list_any};
ghost use Rattle.vr_json.specs.Paths.{item_path, name_path};
ghost use Rattle.vr_json.specs.Reading as reading;
ghost use Rattle.vr_json.specs.Reading.{Answers};
ghost use Rattle.vr_model.specs.tables.ModelRules as model_rules;
ghost use Rattle.vr_model.specs.tables.ModelRules.{greatest_entry, is_large, is_negative};
ghost use Rattle.vr_model.specs.tables.WellFormed.{IsEvaluator, WherePresent};
ghost use Rattle.vr_model.specs.declared.records.Matrix.{Matrix as MatrixOf};
ghost use Rattle.vr_read.specs.Rules.{costs_rule, dimension_entries_rule, entries_rule, rules, savings_rule};
ghost use Rattle.vr_read.specs.Rules.{transits_rule};

use crate::alike::vehicles_differ;
use crate::backward::goes_back;
use crate::tabled::Tabled;
use std::alloc::Global;
use vr_json::{Cause, Path, ReadFail, refuse_if};
use vr_model::limits::GREATEST_VALUE;
use vr_model::{Dimension, First, Matrix, Model, NoMemory, Seq};

/// Refuses a model that breaks a rule on the whole of it. `path` is that of the model. The rules, in order:
///
/// - `NegativeCost` at the costs of the first vehicle whose matrix has a negative entry.
/// - `LargeTransit` at the matrix of the first evaluator whose matrix has an entry above 2^30.
/// - `NegativeTransit` at the first dimension that has breaks or span costs, and a negative transit of a vehicle
///   between two different nodes.
/// - `UnlikeVehicles` at `search/first` if savings are asked for, though vehicles differ or rows of allowed vehicles
///   are there.
#[tactic(auto, unfolding(vr_json::specs::Reading::and_then, crate::specs::Rules::rules))]
pub(crate) fn keep_rules(alloc: Global, of: Tabled<'_>, path: &Path) -> Result<(), ReadFail>
    ensures { Answers result (rules path.now of.entry.model.now) }
{
    keep_costs(alloc, of, path)?;
    keep_entries(alloc, of, path)?;
    keep_transits(alloc, of, path)?;
    keep_savings(alloc, of, path)
}

// Refuses the field of entry `k` of an array if a rule is broken. The path of the entry is made only then.
#[tactic(auto, unfolding(vr_json::specs::Reading::refuse_if))]
fn refuse_field(
    alloc: Global,
    broken: bool,
    cause: Cause,
    array: &Path,
    k: usize,
    name: &str,
) -> Result<(), ReadFail>
    ensures { Answers result
        (reading.refuse_if broken cause (name_path (item_path array.now k) name.now)) }
{
    if broken {
        let entry = array.item(k)?;
        refuse_if(alloc, true, cause, entry.field(name))
    } else {
        Ok(())
    }
}

// Whether some entry is negative.
fn has_negative(entries: &[i64]) -> bool
    ensures { result ≡ list_any is_negative entries.now }
{
    entries.iter().any(|entry| *entry < 0)
}

// For each matrix, whether it has a negative entry: each is gone over once, since vehicles share them.
fn negative_matrices(alloc: Global, matrices: &[Matrix]) -> Result<Seq<bool>, NoMemory>
    ensures { IfOk result
        (λ marks. marks ≡ map (λ (m : MatrixOf). list_any is_negative m.entries) matrices.now) }
{
    let mut marks = Seq::new(alloc);
    for matrix in matrices {
        marks.push(has_negative(matrix.entries.as_slice()))?;
    }
    Ok(marks)
}

// The cost matrix of each vehicle has no negative entry.
fn keep_costs(alloc: Global, of: Tabled<'_>, path: &Path) -> Result<(), ReadFail>
    ensures { Answers result (costs_rule path.now of.entry.model.now) }
{
    let model = of.model;
    let vehicles = path.name("vehicles")?;
    let negative = negative_matrices(alloc, model.matrices.as_slice())?;
    for v in 0..model.vehicles.len() {
        let broken = *negative.get(model.vehicles.get(v).costs as usize);
        refuse_field(alloc, broken, Cause::NegativeCost, &vehicles, v, "costs")?;
    }
    Ok(())
}

// Whether the matrix of an evaluator, if it has one, has an entry that is too large.
fn has_large_entry(model: &Model, matrix: Option<u32>) -> bool
    requires { WherePresent (λ m. m < length model.now.matrices) matrix }
    ensures { result ≡ is_large model.now matrix }
{
    match matrix {
        None => false,
        Some(m) => has_large(model.matrices.get(m as usize).entries.as_slice()),
    }
}

// Whether some entry is too large.
fn has_large(entries: &[i64]) -> bool
    ensures { result ≡ list_any (int_lt greatest_entry) entries.now }
{
    entries.iter().any(|entry| GREATEST_VALUE < *entry)
}

// The matrix of each evaluator of a dimension, which is at `path`, has no entry that is too large. A vehicle may use
// the evaluator or not.
fn keep_dimension_entries(
    alloc: Global,
    model: &Model,
    dimension: &Dimension,
    path: &Path,
) -> Result<(), ReadFail>
    requires { All (IsEvaluator model.now) dimension.now.evaluators }
    ensures { Answers result (dimension_entries_rule path.now model.now dimension.now) }
{
    let evaluators = path.name("evaluators")?;
    for k in 0..dimension.evaluators.len() {
        let broken = has_large_entry(model, dimension.evaluators.get(k).matrix);
        refuse_field(alloc, broken, Cause::LargeTransit, &evaluators, k, "matrix")?;
    }
    Ok(())
}

// The matrix of each evaluator of each dimension has no entry that is too large.
fn keep_entries(alloc: Global, of: Tabled<'_>, path: &Path) -> Result<(), ReadFail>
    ensures { Answers result (entries_rule path.now of.entry.model.now) }
{
    let model = of.model;
    let dimensions = path.name("dimensions")?;
    for d in 0..model.dimensions.len() {
        let place = dimensions.item(d)?;
        keep_dimension_entries(alloc, model, model.dimensions.get(d), &place)?;
    }
    Ok(())
}

// No dimension with breaks or span costs goes back.
fn keep_transits(alloc: Global, of: Tabled<'_>, path: &Path) -> Result<(), ReadFail>
    ensures { Answers result (transits_rule path.now of.entry.model.now) }
{
    let model = of.model;
    let dimensions = path.name("dimensions")?;
    for d in 0..model.dimensions.len() {
        let broken = goes_back(of, model.dimensions.get(d));
        refuse_if(alloc, broken, Cause::NegativeTransit, dimensions.entry(d))?;
    }
    Ok(())
}

// Whether the first solution is to be built by savings.
fn is_savings(first: First) -> bool
    ensures { result ≡ model_rules.is_savings first }
{
    matches!(first, First::Savings)
}

// Whether savings are asked for, though vehicles differ or rows of allowed vehicles are there.
fn cannot_save(of: Tabled<'_>) -> bool
    ensures { result ≡ model_rules.cannot_save of.entry.model.now }
{
    is_savings(of.model.search.first) && (vehicles_differ(of) || !of.model.allowed.is_empty())
}

// Savings are asked for only of vehicles that are alike, with no rows of allowed vehicles.
fn keep_savings(alloc: Global, of: Tabled<'_>, path: &Path) -> Result<(), ReadFail>
    ensures { Answers result (savings_rule path.now of.entry.model.now) }
{
    let search = path.name("search")?;
    refuse_if(
        alloc,
        cannot_save(of),
        Cause::UnlikeVehicles,
        search.field("first"),
    )
}
