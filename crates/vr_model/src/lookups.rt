//! What a model and its rows say of nodes, arcs and vehicles. Each look-up is at the smallest record that answers it.

ghost use Rattle.std.specs.Prelude.{ℕ, ◌≡◌, ◌<◌, ◌^◌, ◌*◌, ◌+◌, ◌==◌, ◌||◌, ◌⊎◌, length, pos, neg_ℤ, ◌≤ℤ◌, find, Some};
ghost use Rattle.std.specs.List.{All};
ghost use Rattle.std.specs.Option.{option_copied, option_map};
ghost use Rattle.vr_model.specs.tables.Numbers.{number_at};
ghost use Rattle.vr_model.specs.tables.Tables.{arc_cost, breaks_of as breaks_of_vehicle, dimension_at, evaluated};
ghost use Rattle.vr_model.specs.tables.Tables.{evaluator_of as evaluator_of_vehicle, is_terminal, is_visit};
ghost use Rattle.vr_model.specs.tables.Tables.{matrix_part, row_of, transit};
ghost use Rattle.vr_model.specs.tables.WellFormed.{IsEvaluator, IsEvaluatorFor, IsIn, IsMatrix, IsStopRow};
ghost use Rattle.vr_model.specs.tables.WellFormed.{IsWellFormed, WherePresent};
ghost use Rattle.vr_model.specs.tables.Limits.{least_value, greatest_cost, greatest_value};
ghost use Rattle.vr_model.specs.routes.Rules.{allows_vehicle as allows_vehicle_of};

use crate::{Allowed, BreakRow, Dimension, Evaluator, Matrix, Model, Seq, StopRow, Vehicle};

impl Matrix {
    /// The entry in row `i` and column `j` of a matrix of `n` rows and columns.
    #[inline]
    pub fn entry(&self, n: u32, i: u32, j: u32) -> i64
        requires square { length self.now.entries ≡ n * n }
        requires row { i < n }
        requires column { j < n }
        ensures { result ≡ number_at self.now.entries (i * n + j) }
    {
        *self.entries.get(i as usize * n as usize + j as usize)
    }
}

impl Evaluator {
    /// The value of a node, 0 if there are no values.
    #[inline]
    pub fn value(&self, node: u32) -> i64
        requires { (length self.now.values ≡ 0) ⊎ (node < length self.now.values) }
        ensures value { result ≡ number_at self.now.values node }
        ensures in_range { All (IsIn least_value greatest_value) self.now.values
            → IsIn least_value greatest_value result }
    {
        if self.values.is_empty() {
            0
        } else {
            *self.values.get(node as usize)
        }
    }

    /// What it gives from node `i` to node `j` of a model, in `-2^31..=2^40 + 2^30`. That is the entry of its matrix
    /// and the value of node `i`, added up; each is 0 if it is absent.
    ///
    /// `vr_read` asks it of a model that is not yet known to be well formed. Others ask `Model::transit` and
    /// `Model::transit_by`, which are in a smaller range.
    #[inline]
    pub fn transit(&self, model: &Model, i: u32, j: u32) -> i64
        requires evaluator { IsEvaluator model.now self.now }
        requires matrices { All (IsMatrix model.now.nodes) model.now.matrices }
        requires origin { i < model.now.nodes }
        requires target { j < model.now.nodes }
        ensures { result ≡ evaluated model.now self.now i j }
    {
        model.matrix_part(self.matrix, i, j) + self.value(i)
    }
}

impl StopRow {
    /// The row of a key: of a visit by its node, of a start or an end by its vehicle. It is the first of several, but a
    /// well-formed model has no key twice.
    pub fn of_key(rows: &Seq<StopRow>, key: u32) -> Option<&StopRow>
        ensures value { option_copied result ≡ row_of rows.now key }
        ensures valid { All IsStopRow rows.now → WherePresent IsStopRow (option_copied result) }
    {
        rows.iter().find(|row| row.key == key)
    }
}

impl Dimension {
    /// The evaluator of vehicle `v` (`RoutingDimension::transit_evaluator` in OR-Tools).
    #[inline]
    pub fn evaluator_of(&self, v: u32) -> &Evaluator
        requires vehicle { v < length self.now.vehicle_evaluators }
        requires numbers { All (λ k. k < length self.now.evaluators) self.now.vehicle_evaluators }
        ensures { result.now ≡ evaluator_of_vehicle self.now v }
    {
        let number = *self.vehicle_evaluators.get(v as usize);
        self.evaluators.get(number as usize)
    }

    /// The breaks of vehicle `v`, in the order in which they are taken; none if it has no entry
    /// (`RoutingDimension::GetBreakIntervalsOfVehicle` in OR-Tools).
    pub fn breaks_of(&self, v: u32) -> &[BreakRow]
        ensures { result.now ≡ breaks_of_vehicle self.now v }
    {
        match self.breaks.iter().find(|entry| entry.vehicle == v) {
            Some(entry) => entry.rows.as_slice(),
            None => &[],
        }
    }
}

impl Vehicle {
    /// Whether it starts or ends at a node.
    pub fn starts_or_ends_at(&self, node: u32) -> bool
        ensures { result ≡ ((self.now.start == node) || (self.now.end == node)) }
    {
        self.start == node || self.end == node
    }
}

impl Model {
    /// The cost of the arc from node `i` to node `j` for vehicle `v`, in `0..=2^40`
    /// (`RoutingModel::GetArcCostForVehicle` in OR-Tools).
    #[inline]
    pub fn arc_cost(&self, v: u32, i: u32, j: u32) -> i64
        requires well_formed { IsWellFormed self.now }
        requires vehicle { v < length self.now.vehicles }
        requires origin { i < self.now.nodes }
        requires target { j < self.now.nodes }
        ensures value { result ≡ arc_cost self.now v i j }
        ensures not_negative { pos 0 ≤ℤ result }
        ensures bound { result ≤ℤ pos (2 ^ 40) }
    {
        let costs = self.vehicles.get(v as usize).costs;
        self.matrix_part(Some(costs), i, j)
    }

    /// The transit of vehicle `v` from node `i` to node `j` in dimension `d`, in `-2^31..=2^31`
    /// (`RoutingDimension::GetTransitValue` in OR-Tools). It is the entry of the evaluator's matrix and the value of
    /// node `i`, added up; each is 0 if it is absent.
    #[inline]
    pub fn transit(&self, d: u32, v: u32, i: u32, j: u32) -> i64
        requires well_formed { IsWellFormed self.now }
        requires dimension { d < length self.now.dimensions }
        requires vehicle { v < length self.now.vehicles }
        requires origin { i < self.now.nodes }
        requires target { j < self.now.nodes }
        ensures value { result ≡ transit self.now d v i j }
        ensures least { neg_ℤ (pos (2 ^ 31)) ≤ℤ result }
        ensures greatest { result ≤ℤ pos (2 ^ 31) }
    {
        let evaluator = self.dimensions.get(d as usize).evaluator_of(v);
        self.transit_by(evaluator, i, j)
    }

    /// The transit from node `i` to node `j` of whichever vehicle has this evaluator in some dimension, in
    /// `-2^31..=2^31`. It is for a caller that has looked the evaluator up.
    #[inline]
    pub fn transit_by(&self, evaluator: &Evaluator, i: u32, j: u32) -> i64
        requires well_formed { IsWellFormed self.now }
        requires evaluator { (d : _) × (v : _) × IsEvaluatorFor self.now d v evaluator.now }
        requires origin { i < self.now.nodes }
        requires target { j < self.now.nodes }
        ensures value { (d v : ℕ) → evaluator.now ≡ evaluator_of_vehicle (dimension_at self.now d) v
            → result ≡ transit self.now d v i j }
        ensures least { neg_ℤ (pos (2 ^ 31)) ≤ℤ result }
        ensures greatest { result ≤ℤ pos (2 ^ 31) }
    {
        evaluator.transit(self, i, j)
    }

    /// An entry of the matrix of a number, 0 if there is no number.
    #[inline]
    fn matrix_part(&self, matrix: Option<u32>, i: u32, j: u32) -> i64
        requires matrices { All (IsMatrix self.now.nodes) self.now.matrices }
        requires matrix { WherePresent (λ m. m < length self.now.matrices) matrix }
        requires origin { i < self.now.nodes }
        requires target { j < self.now.nodes }
        ensures value { result ≡ matrix_part self.now matrix i j }
        ensures in_range { IsIn least_value greatest_cost result }
    {
        match matrix {
            Some(m) => self.matrices.get(m as usize).entry(self.nodes, i, j),
            None => 0,
        }
    }

    /// Whether vehicle `v` may visit a node. If the node has a row of allowed vehicles, those of the row alone may.
    pub fn allows_vehicle(&self, v: u32, node: u32) -> bool
        ensures { result ≡ allows_vehicle_of self.now v node }
    {
        match self.allowed_row(node) {
            Some(row) => row.vehicles.as_slice().contains(&v),
            None => true,
        }
    }

    /// The row of allowed vehicles of a node, the first of several.
    fn allowed_row(&self, node: u32) -> Option<&Allowed>
        ensures { option_map (λ row. row.now) result ≡ find (λ row. row.node == node) self.now.allowed }
    {
        self.allowed.iter().find(|row| row.node == node)
    }

    /// Whether some vehicle starts or ends at a node.
    pub fn is_terminal(&self, node: u32) -> bool
        ensures { result ≡ is_terminal self.now node }
    {
        self.vehicles
            .iter()
            .any(|vehicle| vehicle.starts_or_ends_at(node))
    }

    /// Whether a node is a visit: below the number of nodes, and no vehicle's start or end.
    pub fn is_visit(&self, node: u32) -> bool
        ensures { result ≡ is_visit self.now node }
    {
        node < self.nodes && !self.is_terminal(node)
    }
}
