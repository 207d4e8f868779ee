//! A printed solution, as its tree says it. The comments here say how many routes, plans, cumuls, slacks and breaks
//! there are. That holds if the shape was found right (`shape`), so in each solution that `read_printed` gives.

use vr_model::{Parts, Seq, Text};

/// What is printed of a used vehicle in a dimension.
#[derive(Drop)]
pub struct PrintedPlan {
    /// The name of the dimension.
    pub name: Text,
    /// A cumul for each stop.
    pub cumuls: Seq<i64>,
    /// A slack for each arc.
    pub slacks: Seq<i64>,
    /// A start for each break, in order.
    pub breaks: Seq<i64>,
}

/// What is printed of a vehicle.
#[derive(Drop)]
pub struct PrintedRoute {
    /// The number that is printed as the vehicle's.
    pub vehicle: i64,
    /// The nodes from the start to the end; none if the vehicle is unused.
    pub nodes: Seq<u32>,
    /// A plan for each dimension; none if the vehicle is unused.
    pub plans: Seq<PrintedPlan>,
}

/// A printed solution. The words of its fields `status` and `stop` are asked and not kept.
#[derive(Drop)]
pub struct Printed {
    /// What is printed as the cost.
    pub cost: i64,
    /// The nodes that are printed as dropped.
    pub dropped: Seq<u32>,
    /// What is printed as the cost of the first solution.
    pub first_cost: i64,
    /// The six printed parts of the cost.
    pub parts: Parts,
    /// A route for each vehicle.
    pub routes: Seq<PrintedRoute>,
    /// What is printed as the number of solutions.
    pub solutions: i64,
    /// What is printed as the number of tries.
    pub tries: i64,
}
