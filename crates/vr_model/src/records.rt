//! The records of a routing model, as reading a model file gives them.
//!
//! Nodes are numbers below `nodes`, vehicles below the number of `vehicles`, and so on. Times, loads
//! and distances have no unit of their own: a model keeps its own. The horizon is `2^36`.

use crate::{Neighbourhood, Seq, Text};

/// A routing model (`RoutingModel` in OR-Tools).
#[derive(Drop)]
pub struct Model {
    /// How many nodes there are, in `1..=1000`.
    pub nodes: u32,
    /// 1 to 16 matrices.
    pub matrices: Seq<Matrix>,
    /// 1 to 100 vehicles.
    pub vehicles: Seq<Vehicle>,
    /// Up to 4 dimensions.
    pub dimensions: Seq<Dimension>,
    /// Up to 1000 groups, with no node in two. A visit in no group has to be active.
    pub groups: Seq<Group>,
    /// Up to 500 pairs, with no node in two.
    pub pairs: Seq<Pair>,
    /// Up to 1000 rows, with no node in two. A visit without a row allows every vehicle.
    pub allowed: Seq<Allowed>,
    pub search: SearchRow,
}

/// A number for each ordered pair of nodes.
#[derive(Drop)]
pub struct Matrix {
    /// The entries row by row, in `-2^30..=2^40`. Arc costs are not negative. Entries that a dimension uses are at most
    /// `2^30`.
    pub entries: Seq<i64>,
}

/// A vehicle.
#[derive(Clone, Copy)]
pub struct Vehicle {
    /// The node at which its route begins.
    pub start: u32,
    /// The node at which its route ends.
    pub end: u32,
    /// The number of the matrix of its arc costs (`SetArcCostEvaluatorOfVehicle` in OR-Tools).
    pub costs: u32,
    /// What it costs to use it, in `0..=2^40` (`SetFixedCostOfVehicle` in OR-Tools).
    pub fixed: i64,
    pub policy: Policy,
    pub schedule: ScheduleRule,
}

/// In which order a vehicle may serve its pairs (`PickupAndDeliveryPolicy` in OR-Tools).
#[derive(Clone, Copy)]
pub enum Policy {
    /// In any order, each pickup before its delivery.
    Any,
    /// What was picked up last is delivered first.
    Lifo,
    /// What was picked up first is delivered first.
    Fifo,
}

/// By which rule a vehicle chooses one of its schedules, in each dimension. If several have the cumuls that a rule asks
/// for, it is the one with the least break starts, compared from the first on.
#[derive(Clone, Copy)]
pub enum ScheduleRule {
    /// The least cumuls, compared from the start on.
    Earliest,
    /// The least cumul at the end; with it the greatest at the start; with both the least cumuls, compared from the
    /// start on.
    Tight,
}

/// A quantity that adds up along each route, as time or load (`RoutingDimension` in OR-Tools).
#[derive(Drop)]
pub struct Dimension {
    /// 1 to 64 bytes, not the name of another dimension.
    pub name: Text,
    /// 1 to 8 evaluators.
    pub evaluators: Seq<Evaluator>,
    /// For each vehicle the number of its evaluator.
    pub vehicle_evaluators: Seq<u32>,
    /// The greatest slack of an arc, up to the horizon.
    pub slack_max: i64,
    /// For each vehicle its greatest cumul, up to the horizon.
    pub capacities: Seq<i64>,
    /// Whether each cumul of a start is 0 (`fix_start_cumul_to_zero` in OR-Tools).
    pub fix_start: bool,
    /// For each node its visit time, in `0..=2^30`. A break on the arc from a node begins no earlier than that long
    /// after the cumul there.
    pub visit: Seq<i64>,
    /// Rows of visits, by node; up to 1000.
    pub nodes: Seq<StopRow>,
    /// Rows of starts, by vehicle; up to 100.
    pub starts: Seq<StopRow>,
    /// Rows of ends, by vehicle; up to 100.
    pub ends: Seq<StopRow>,
    /// The breaks of vehicles, up to 100 entries, with no vehicle in two.
    pub breaks: Seq<VehicleBreaks>,
    /// For each vehicle what its span costs, in `0..=10000` (`SetSpanCostCoefficientForVehicle` in
    /// OR-Tools).
    pub span_costs: Seq<i64>,
    /// What the span of all used routes together costs, in `0..=10000` (`SetGlobalSpanCostCoefficient` in OR-Tools).
    pub global_span_cost: i64,
}

/// What a dimension adds on an arc: the entry of the matrix, and the value of the node at which the arc begins.
#[derive(Drop)]
pub struct Evaluator {
    /// The number of a matrix, or none.
    pub matrix: Option<u32>,
    /// For each node a value in `-2^30..=2^30`, or no values at all.
    pub values: Seq<i64>,
}

/// What a stop asks of its cumul.
#[derive(Drop)]
pub struct StopRow {
    /// The node of a visit, or the vehicle of a start or an end.
    pub key: u32,
    /// The cumul lies in it (`CumulVar(index).SetRange` in OR-Tools).
    pub window: Option<Interval>,
    /// The cumul lies in none of these; up to 16 intervals (`RemoveInterval` in OR-Tools).
    pub forbidden: Seq<Interval>,
    pub soft: Option<Soft>,
}

/// The numbers from `lo` to `hi`, both included, with `0 <= lo <= hi` and `hi` up to the horizon.
#[derive(Clone, Copy)]
pub struct Interval {
    pub lo: i64,
    pub hi: i64,
}

/// A soft upper bound of a cumul (`SetCumulVarSoftUpperBound` in OR-Tools).
#[derive(Clone, Copy)]
pub struct Soft {
    /// In `0..=2^36`.
    pub bound: i64,
    /// What each unit above the bound costs, in `0..=10000`.
    pub coefficient: i64,
}

/// The breaks of a vehicle in a dimension (`SetBreakIntervalsOfVehicle` in OR-Tools).
#[derive(Drop)]
pub struct VehicleBreaks {
    pub vehicle: u32,
    /// 1 to 8 breaks, in the order in which they are taken.
    pub rows: Seq<BreakRow>,
}

/// A break. It begins in `from..=to`, with `0 <= from <= to`, and takes `duration`, at least 1; all are up to the
/// horizon.
#[derive(Clone, Copy, Default)]
pub struct BreakRow {
    pub from: i64,
    pub to: i64,
    pub duration: i64,
}

/// A group of visits of which only some have to be active (`AddDisjunction` in OR-Tools).
#[derive(Drop)]
pub struct Group {
    /// 1 to 1000 visits.
    pub nodes: Seq<u32>,
    /// What each active node below `max` that is missing costs, in `0..=2^40`. Without a penalty
    /// exactly `max` nodes are active.
    pub penalty: Option<i64>,
    /// How many nodes may be active, in `1..=` their number (`max_cardinality` in OR-Tools).
    pub max: u32,
}

/// A pickup and its delivery (`AddPickupAndDelivery` in OR-Tools).
#[derive(Clone, Copy)]
pub struct Pair {
    pub pickup: u32,
    pub delivery: u32,
}

/// The vehicles that may visit a node (`SetAllowedVehiclesForIndex` in OR-Tools).
#[derive(Drop)]
pub struct Allowed {
    pub node: u32,
    /// One vehicle or more, none twice.
    pub vehicles: Seq<u32>,
}

/// What a model asks of the search (`RoutingSearchParameters` in OR-Tools).
#[derive(Drop)]
pub struct SearchRow {
    pub first: First,
    pub improve: Improve,
    /// How many moves may be tried, or cuts of path neighbourhoods, in `0..=10^9`.
    pub tries: u64,
    /// How many solutions may be found, the first one included, in `1..=10^9`.
    pub solutions: u64,
    /// The numerator of lambda, the weight of penalties in `GuidedLocalSearch`, in `1..=1000`.
    pub p: i64,
    /// The denominator of lambda, in `1..=1000`.
    pub q: i64,
    /// The neighbourhoods in the order in which their moves are tried, none twice. `PathLns` does not ask for them.
    pub neighbourhoods: Seq<Neighbourhood>,
    /// How many visits the chain of a cut has at most, in `1..=100`. `PathLns` takes these out of a list, and the other
    /// nodes of their pairs beside them.
    pub cut: u32,
    /// For how many rounds `TabuSearch` holds a changed visit tabu, in `1..=1000`.
    pub tenure: u32,
}

/// How the first solution is built (`FirstSolutionStrategy` in OR-Tools).
#[derive(Clone, Copy)]
pub enum First {
    /// Vehicle after vehicle, the item of the cheapest arc is appended. Items in no group come first, those with a
    /// penalty last.
    PathCheapestArc,
    /// The cheapest insertion into any list is made first. Items in no group come before others, those with a penalty
    /// last.
    ParallelCheapestInsertion,
    /// Routes of one item each are joined, the join that saves most first (Clarke, Wright).
    Savings,
}

/// How the first solution is improved (`LocalSearchMetaheuristic` in OR-Tools).
#[derive(Clone, Copy)]
pub enum Improve {
    None,
    /// The first move that costs less is made, again and again.
    GreedyDescent,
    /// The same by the cost with penalised arcs. If no such move is left, arcs are penalised and it goes on.
    GuidedLocalSearch,
    /// A chain of a list is taken out, and items that are in no list are inserted as long as one may be. The first such
    /// cut whose lists cost less is kept, again and again.
    PathLns,
    /// The best move is made, even if it costs more. A tabu move counts only if it leads to the cheapest lists so far.
    TabuSearch,
}

/// The six parts of the cost of a solution. None is negative if the lists are valid. What `vr_printed` reads as parts
/// may be any numbers.
#[derive(Clone, Copy)]
pub struct Parts {
    /// The arc costs of the used vehicles.
    pub arcs: i64,
    /// The fixed costs of the used vehicles.
    pub fixed: i64,
    /// For each dimension, the coefficient times the span from the first start to the last end of the used vehicles.
    pub global: i64,
    /// The penalties of the groups.
    pub penalty: i64,
    /// What cumuls cost above their soft bounds.
    pub soft: i64,
    /// For each used vehicle and dimension, the coefficient times the span.
    pub span: i64,
}

/// Why a search ended.
#[derive(Clone, Copy)]
pub enum End {
    /// There was no search: the first solution was asked for, or the model names none.
    First,
    /// No move, or no cut, was acceptable, and nothing else was left to do.
    Optimum,
    /// No try was left.
    Tries,
    /// No solution was left to find.
    Solutions,
}

/// How a search went.
#[derive(Clone, Copy)]
pub struct Report {
    /// How many moves were tried, or cuts. A round of tabu search that would need more tries than are left uses up all.
    pub tries: u64,
    /// How many solutions were found: 1, and 1 for each move that was made or cut that was kept.
    pub solutions: u64,
    pub end: End,
}
