//! The rules of one model, ready to be asked; and functions that look a model up for one question, for tests alone.

ghost use Rattle.std.specs.Prelude.{◌≡◌, ◌<◌, ◌≤ℤ◌, IfOk, IsTrue, length, pos};
ghost use Rattle.std.specs.List.{list_all};
ghost use Rattle.vr_model.specs.routes.Costs.{assigned, cost as cost_of, parts_at};
ghost use Rattle.vr_model.specs.routes.Routes.{are_lists, is_distinct};
ghost use Rattle.vr_model.specs.routes.Rules.{is_open as is_open_of, is_route_open as is_route_open_of};
ghost use Rattle.vr_model.specs.routes.Rules.{is_valid as is_valid_of};
ghost use Rattle.vr_model.specs.tables.Tables.{is_visit};
ghost use Rattle.vr_model.specs.tables.WellFormed.{IsWellFormed};
ghost use Rattle.vr_rules.specs.Placing.{AreBuilt};
ghost use Rattle.vr_rules.specs.Totals.{AreInRange, HasTotal};

use crate::costs::total_cost;
use crate::marks::with_marks;
use crate::parts::parts_of;
use crate::routes_open::{Driving, is_route_open};
use crate::validity::{is_open, is_valid, is_valid_where_open};
use std::alloc::Global;
use std::marker::Model;
use vr_model::{Closed, Model as RoutingModel, NoMemory, Parts};
use vr_plan::{Lookups, Timer};
use vr_routes::Routes;

/// The rules of a model, ready to be asked of any lists. Contracts see the model, which no call changes.
///
/// What its stops ask is looked up once, and the group, the pair and the allowed vehicles of each node. What a question
/// writes is kept, to be written over. After the first questions an answer takes memory only in four cases:
/// - a set of cumuls has more than four runs,
/// - a list is longer than any before,
/// - its vehicle has breaks,
/// - a tight schedule is built, for which a line is copied.
#[derive(Drop)]
pub struct Rules<'m> {
    lookups: Lookups<'m>,
    // on the heap, since it is large
    kept: Box<Kept>,
}

// What is written over when a question wants it.
#[derive(Drop)]
struct Kept {
    // for each node whether it is active
    marks: Vec<bool>,
    // for whether vehicles may drive their lists
    driving: Driving,
    // for what schedules cost
    timer: Timer,
}

impl<'m> Model for Rules<'m> {
    ghost use Rattle.vr_model.specs.declared.records.Model.{Model as Defined};

    ghost Value = { Defined };

    ghost view = { λ rules. rules.lookups.closed.model.now };
}

impl<'m> Rules<'m> {
    /// The rules of a model. It fails only if it is out of memory, as each question does. `vr_plain` calls it, and the
    /// functions below; the program has the model looked up, and calls `over`.
    pub fn open(alloc: Global, model: &'m RoutingModel) -> Result<Rules<'m>, NoMemory>
        requires { IsWellFormed model.now }
        ensures { IfOk result (λ rules. rules ≡ model.now) }
    {
        let lookups = Lookups::open(alloc, Closed { model })?;
        Rules::over(alloc, &lookups)
    }

    /// The same, over what was looked up of the model. `vr_app`, `vr_first_savings`, `vr_lns` and `vr_print` call it.
    pub fn over(alloc: Global, lookups: &Lookups<'m>) -> Result<Rules<'m>, NoMemory>
        ensures { IfOk result (λ rules. rules ≡ lookups.now.closed.model.now) }
    {
        Ok(Rules {
            lookups: lookups.share()?,
            kept: Box::new(
                alloc,
                Kept {
                    marks: Vec::new(alloc),
                    driving: Driving::new(alloc),
                    timer: Timer::new(alloc),
                },
            )?,
        })
    }

    /// The model. It takes no memory. `vr_plain` asks it.
    pub fn model(&self) -> &'m RoutingModel
        ensures model { result.now ≡ self.now }
        ensures well_formed { IsWellFormed self.now }
    {
        self.lookups.closed.model
    }

    /// Whether vehicle `v` may drive a list. It may if the list is empty, or if three things hold:
    /// - Its line in each dimension has a schedule.
    /// - It serves each pair in order and as the vehicle's policy asks.
    /// - The vehicle may visit each of its nodes.
    ///
    /// The list holds distinct visits. Tests alone ask it, by the function `route_open`; `vr_first_savings` asks
    /// `is_route_open`, over room of its own.
    pub fn route_open(&mut self, v: u32, list: &[u32]) -> Result<bool, NoMemory>
        requires vehicle { v < length self.old.vehicles }
        requires visits { IsTrue (list_all (is_visit self.old) list.now) }
        requires distinct { IsTrue (is_distinct list.now) }
        ensures answer { IfOk result (λ answer. answer ≡ is_route_open_of self.old v list.now) }
        ensures model { self.new ≡ self.old }
    {
        is_route_open(&self.lookups, v, list, &mut self.kept.driving)
    }

    /// Whether routes of the model are open: each vehicle may drive its list, and no group has more active nodes than
    /// it may have. Tests alone ask it, by the function `open`.
    pub fn open_routes(&mut self, routes: &Routes) -> Result<bool, NoMemory>
        requires lists { IsTrue (are_lists self.old routes.now.lists) }
        ensures answer { IfOk result (λ answer. answer ≡ is_open_of self.old routes.now.lists) }
        ensures model { self.new ≡ self.old }
    {
        let kept = &mut *self.kept;
        let of = with_marks(&self.lookups, routes, &mut kept.marks)?;
        is_open(&of, None, &mut kept.driving)
    }

    /// The same, if other routes of the model are open. A list that is the same there is not asked again. `vr_lns` asks
    /// it of what a ruin leaves, beside the routes that are ruined.
    pub fn open_beside(&mut self, others: &Routes, routes: &Routes) -> Result<bool, NoMemory>
        requires others { AreBuilt self.old others.now.lists }
        requires lists { IsTrue (are_lists self.old routes.now.lists) }
        ensures answer { IfOk result (λ answer. answer ≡ is_open_of self.old routes.now.lists) }
        ensures model { self.new ≡ self.old }
    {
        let kept = &mut *self.kept;
        let of = with_marks(&self.lookups, routes, &mut kept.marks)?;
        is_open(&of, Some(others), &mut kept.driving)
    }

    /// Whether open routes of the model are valid: each visit in no group is active, and each group without a penalty
    /// is full. A full group has exactly as many active nodes as it may have. `vr_lns` asks it of what is recreated,
    /// which is open.
    pub fn valid_where_open(&mut self, routes: &Routes) -> Result<bool, NoMemory>
        requires built { AreBuilt self.old routes.now.lists }
        ensures answer { IfOk result (λ answer. answer ≡ is_valid_of self.old routes.now.lists) }
        ensures model { self.new ≡ self.old }
    {
        let kept = &mut *self.kept;
        let of = with_marks(&self.lookups, routes, &mut kept.marks)?;
        Ok(is_valid_where_open(&of))
    }

    /// Whether routes of the model are valid. They are if three things hold:
    /// - They are open.
    /// - Each visit in no group is active.
    /// - Each group without a penalty has exactly as many active nodes as it may have.
    ///
    /// `vr_first_savings` asks it of its last lists, and `vr_plain` of those after a move that it judges.
    pub fn valid(&mut self, routes: &Routes) -> Result<bool, NoMemory>
        requires lists { IsTrue (are_lists self.old routes.now.lists) }
        ensures answer { IfOk result (λ answer. answer ≡ is_valid_of self.old routes.now.lists) }
        ensures model { self.new ≡ self.old }
    {
        let kept = &mut *self.kept;
        let of = with_marks(&self.lookups, routes, &mut kept.marks)?;
        is_valid(&of, &mut kept.driving)
    }

    /// What valid routes cost at their chosen schedules: the six parts of the cost, none of them negative, with a sum
    /// below 2^63. `vr_print` asks it, and `total`.
    pub fn cost(&mut self, routes: &Routes) -> Result<Parts, NoMemory>
        requires valid { IsTrue (is_valid_of self.old routes.now.lists) }
        ensures parts { IfOk result (λ parts. parts ≡ parts_at self.old (assigned self.old routes.now.lists)) }
        ensures total { IfOk result HasTotal }
        ensures model { self.new ≡ self.old }
    {
        let kept = &mut *self.kept;
        let of = with_marks(&self.lookups, routes, &mut kept.marks)?;
        parts_of(&of, &mut kept.timer)
    }

    /// What open routes cost at their chosen schedules, also if visits are missing that must be served. Each of the six
    /// parts has its bound, and so has any sum of them. `vr_ruin` asks it.
    pub fn cost_where_open(&mut self, routes: &Routes) -> Result<Parts, NoMemory>
        requires built { AreBuilt self.old routes.now.lists }
        ensures parts { IfOk result (λ parts. parts ≡ parts_at self.old (assigned self.old routes.now.lists)) }
        ensures range { IfOk result AreInRange }
        ensures model { self.new ≡ self.old }
    {
        let kept = &mut *self.kept;
        let of = with_marks(&self.lookups, routes, &mut kept.marks)?;
        parts_of(&of, &mut kept.timer)
    }

    /// What valid routes cost in all, in `0..=2^63 - 1`. `vr_app`, `vr_lns` and `vr_plain` ask it.
    pub fn total(&mut self, routes: &Routes) -> Result<i64, NoMemory>
        requires valid { IsTrue (is_valid_of self.old routes.now.lists) }
        ensures value { IfOk result (λ total. total ≡ cost_of self.old routes.now.lists) }
        ensures least { IfOk result (λ total. pos 0 ≤ℤ total) }
        ensures model { self.new ≡ self.old }
    {
        let parts = self.cost(routes)?;
        Ok(total_cost(&parts))
    }
}

/// Whether vehicle `v` may drive a list, as `Rules::route_open` answers it.
///
/// The list holds distinct visits. `NoMemory` if it is out of memory.
pub fn route_open(
    alloc: Global,
    model: &RoutingModel,
    v: u32,
    list: &[u32],
) -> Result<bool, NoMemory>
    requires well_formed { IsWellFormed model.now }
    requires vehicle { v < length model.now.vehicles }
    requires visits { IsTrue (list_all (is_visit model.now) list.now) }
    requires distinct { IsTrue (is_distinct list.now) }
    ensures { IfOk result (λ answer. answer ≡ is_route_open_of model.now v list.now) }
{
    let mut rules = Rules::open(alloc, model)?;
    rules.route_open(v, list)
}

/// Whether routes of the model are open, as `Rules::open_routes` answers it. `NoMemory` if it is out of memory.
pub fn open(alloc: Global, model: &RoutingModel, routes: &Routes) -> Result<bool, NoMemory>
    requires well_formed { IsWellFormed model.now }
    requires lists { IsTrue (are_lists model.now routes.now.lists) }
    ensures { IfOk result (λ answer. answer ≡ is_open_of model.now routes.now.lists) }
{
    let mut rules = Rules::open(alloc, model)?;
    rules.open_routes(routes)
}

/// Whether routes of the model are valid, as `Rules::valid` answers it. `NoMemory` if it is out of memory.
pub fn valid(alloc: Global, model: &RoutingModel, routes: &Routes) -> Result<bool, NoMemory>
    requires well_formed { IsWellFormed model.now }
    requires lists { IsTrue (are_lists model.now routes.now.lists) }
    ensures { IfOk result (λ answer. answer ≡ is_valid_of model.now routes.now.lists) }
{
    let mut rules = Rules::open(alloc, model)?;
    rules.valid(routes)
}

/// What valid routes cost, as `Rules::cost` answers it. `NoMemory` if it is out of memory.
pub fn cost(alloc: Global, model: &RoutingModel, routes: &Routes) -> Result<Parts, NoMemory>
    requires well_formed { IsWellFormed model.now }
    requires valid { IsTrue (is_valid_of model.now routes.now.lists) }
    ensures parts { IfOk result (λ parts. parts ≡ parts_at model.now (assigned model.now routes.now.lists)) }
    ensures total { IfOk result HasTotal }
{
    let mut rules = Rules::open(alloc, model)?;
    rules.cost(routes)
}

/// What valid routes cost in all, as `Rules::total` answers it. `NoMemory` if it is out of memory.
pub fn total(alloc: Global, model: &RoutingModel, routes: &Routes) -> Result<i64, NoMemory>
    requires well_formed { IsWellFormed model.now }
    requires valid { IsTrue (is_valid_of model.now routes.now.lists) }
    ensures value { IfOk result (λ total. total ≡ cost_of model.now routes.now.lists) }
    ensures least { IfOk result (λ total. pos 0 ≤ℤ total) }
{
    let mut rules = Rules::open(alloc, model)?;
    rules.total(routes)
}
