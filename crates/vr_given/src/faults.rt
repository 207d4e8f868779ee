//! The first rule that lists of a model break, and at which vehicle and place.

ghost use Rattle.std.specs.Prelude.{◌≡◌, ◌<◌, IfOk, IsTrue, length};
ghost use Rattle.std.specs.List.{list_all};
ghost use Rattle.vr_model.specs.routes.Routes.{are_lists, is_distinct};
ghost use Rattle.vr_model.specs.tables.Tables.{is_visit};
ghost use Rattle.vr_reach.specs.Lists.{is_feasible_list};
ghost use Rattle.vr_given.specs.ListFaults as list_faults;

use std::alloc::Global;
use vr_check::{Spot, missing, refused, wrong_group, wrong_pair, wrong_policy};
use vr_model::{NoMemory, Seq};
use vr_plan::Lookups;
use vr_reach::{StopsFor, Walk, goes_through};

/// The rules of lists, in the order in which they are asked. Each says what vehicle and place are if it is broken. A
/// number that does not apply is -1.
#[derive(Clone, Copy)]
pub enum ListRule {
    /// Each visit in no group is active. The place is the least node that is not.
    Required,
    /// Each group has no more active nodes than it may have, and exactly as many without a penalty. The place is the
    /// number of the group.
    Group,
    /// Both nodes of a pair are active or neither, in one list, the pickup first. The place is the number of the pair.
    Pair,
    /// The vehicle's policy on its pairs holds. The vehicle alone.
    Policy,
    /// Each visit allows its vehicle. The vehicle, and the place in its nodes, of which the start is place 0.
    Allowed,
    /// Each used vehicle has a schedule in each dimension. The vehicle, and the number of the dimension.
    Schedule,
}

/// The rule that lists break first, and at which vehicle and place.
#[derive(Clone, Copy)]
pub struct ListFault {
    pub rule: ListRule,
    pub spot: Spot,
}

impl ListRule {
    /// The word of the rule: its name in lower case.
    pub fn word(self) -> &'static str
        ensures { result.now ≡ list_faults.list_rule_word self }
    {
        match self {
            ListRule::Required => "required",
            ListRule::Group => "group",
            ListRule::Pair => "pair",
            ListRule::Policy => "policy",
            ListRule::Allowed => "allowed",
            ListRule::Schedule => "schedule",
        }
    }

    // The fault that this rule is broken at a spot.
    fn broken(self, spot: Spot) -> ListFault
        ensures { result ≡ list_faults.list_fault_at self spot }
    {
        ListFault { rule: self, spot }
    }
}

// Whether a vehicle is not used, or has a schedule with its list in a dimension.
fn fits(
    lookups: &Lookups<'_>,
    v: u32,
    list: &[u32],
    d: u32,
    walk: &mut Walk,
) -> Result<bool, NoMemory>
    requires vehicle { v < length lookups.now.closed.model.now.vehicles }
    requires visits { IsTrue (list_all (is_visit lookups.now.closed.model.now) list.now) }
    requires distinct { IsTrue (is_distinct list.now) }
    requires dimension { d < length lookups.now.closed.model.now.dimensions }
    ensures { IfOk result (λ fits. fits ≡ is_feasible_list lookups.now.closed.model.now d v list.now) }
{
    if list.is_empty() {
        return Ok(true);
    }
    let table = lookups.table(d);
    let stops = StopsFor {
        closed: lookups.closed,
        d,
        v,
        of_dimension: &table.stops,
    };
    goes_through(&stops, list, walk)
}

// The first dimension in which a used vehicle has no schedule with its list.
fn late_in(
    lookups: &Lookups<'_>,
    v: usize,
    list: &[u32],
    walk: &mut Walk,
) -> Result<Option<Spot>, NoMemory>
    requires vehicle { v < length lookups.now.closed.model.now.vehicles }
    requires visits { IsTrue (list_all (is_visit lookups.now.closed.model.now) list.now) }
    requires distinct { IsTrue (is_distinct list.now) }
    ensures { IfOk result (λ spot. spot ≡ list_faults.schedule_broken_of lookups.now.closed.model.now v list.now) }
{
    for d in 0..lookups.closed.model.dimensions.len() {
        if !fits(lookups, v as u32, list, d as u32, walk)? {
            return Ok(Some(Spot::at(v, d)));
        }
    }
    Ok(None)
}

// The first used vehicle that has no schedule with its list, and the first such dimension.
fn late(alloc: Global, lookups: &Lookups<'_>, lists: &[Seq<u32>]) -> Result<Option<Spot>, NoMemory>
    requires { IsTrue (are_lists lookups.now.closed.model.now lists.now) }
    ensures { IfOk result (λ spot. spot ≡ list_faults.schedule_broken lookups.now.closed.model.now lists.now) }
{
    let mut walk = Walk::new(alloc);
    for v in 0..lists.len() {
        let spot = late_in(lookups, v, lists[v].as_slice(), &mut walk)?;
        if spot.is_some() {
            return Ok(spot);
        }
    }
    Ok(None)
}

// The fault of lists as far as vehicles go.
fn vehicle_fault(
    alloc: Global,
    lookups: &Lookups<'_>,
    lists: &[Seq<u32>],
) -> Result<Option<ListFault>, NoMemory>
    requires { IsTrue (are_lists lookups.now.closed.model.now lists.now) }
    ensures { IfOk result (λ fault. fault ≡ list_faults.vehicle_fault lookups.now.closed.model.now lists.now) }
{
    if let Some(spot) = wrong_policy(alloc, lookups.closed, lists)? {
        return Ok(Some(ListRule::Policy.broken(spot)));
    }
    if let Some(spot) = refused(lookups.closed, lists) {
        return Ok(Some(ListRule::Allowed.broken(spot)));
    }
    if let Some(spot) = late(alloc, lookups, lists)? {
        return Ok(Some(ListRule::Schedule.broken(spot)));
    }
    Ok(None)
}

/// The first rule that lists of a model break, and at which vehicle and place. It is `None` exactly if they are valid
/// (`laws`). The rules are asked in the order of [`ListRule`]. Of one rule it is the first case by vehicle, and then by
/// place or dimension.
///
/// `NoMemory` if there is none.
#[tactic(auto, unfolding(crate::specs::ListFaults::fault_of_lists))]
pub fn list_fault(
    alloc: Global,
    lookups: &Lookups<'_>,
    lists: &[Seq<u32>],
) -> Result<Option<ListFault>, NoMemory>
    requires { IsTrue (are_lists lookups.now.closed.model.now lists.now) }
    ensures { IfOk result (λ fault. fault ≡ list_faults.fault_of_lists lookups.now.closed.model.now lists.now) }
{
    let closed = lookups.closed;
    if let Some(spot) = missing(closed.model, lists) {
        return Ok(Some(ListRule::Required.broken(spot)));
    }
    if let Some(spot) = wrong_group(closed, lists) {
        return Ok(Some(ListRule::Group.broken(spot)));
    }
    if let Some(spot) = wrong_pair(closed, lists) {
        return Ok(Some(ListRule::Pair.broken(spot)));
    }
    vehicle_fault(alloc, lookups, lists)
}
