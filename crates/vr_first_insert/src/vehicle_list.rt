//! The list of a vehicle, and what may be put into it.

ghost use Rattle.std.specs.Prelude.{◌<◌, All, IsTrue, length};
ghost use Rattle.std.specs.List.{list_all};
ghost use Rattle.vr_model.specs.routes.Rules.{allows_vehicle};
ghost use Rattle.vr_reach.specs.Lists.{IsTour};
ghost use Rattle.vr_rules.specs.declared.items.Item.TheVariants.{Visit, PickupAndDelivery};
ghost use Rattle.vr_rules.specs.Placing.{item_nodes};
ghost use Rattle.vr_first_insert.specs.Placings.{MayHold};

use crate::list_rows::ListRows;
use vr_plan::Lookups;
use vr_rules::Candidate;

/// The list of a vehicle, with what was looked up of the model.
#[derive(Clone, Copy)]
pub(crate) struct LookedUpList<'l, 'm, 'k> {
    pub(crate) lookups: &'l Lookups<'m>,
    pub(crate) vehicle: u32,
    pub(crate) nodes: &'k [u32],
    ghost there: { vehicle < length lookups.now.closed.model.now.vehicles },
    ghost tour: { IsTour lookups.now.closed.model.now nodes.now },
    ghost below: { All (λ node. node < lookups.now.closed.model.now.nodes) nodes.now },
}

/// A candidate that a list may hold, with what is kept of lists.
#[derive(Clone, Copy)]
pub(crate) struct CandidateIn<'l, 'm, 'k> {
    pub(crate) list: LookedUpList<'l, 'm, 'k>,
    pub(crate) list_rows: &'k [ListRows],
    pub(crate) candidate: Candidate,
    ghost may_hold: { MayHold list.lookups.now.closed.model.now list.nodes.now candidate.item },
}

/// A visit, with its class (`vr_rules::Candidate`), that a list may hold and its vehicle may make.
#[derive(Clone, Copy)]
pub(crate) struct VisitIn<'l, 'm, 'k> {
    pub(crate) list: LookedUpList<'l, 'm, 'k>,
    pub(crate) list_rows: &'k [ListRows],
    pub(crate) class: u32,
    pub(crate) node: u32,
    ghost may_hold: { MayHold list.lookups.now.closed.model.now list.nodes.now (Visit node) },
    ghost allowed: { IsTrue (list_all (allows_vehicle list.lookups.now.closed.model.now list.vehicle)
        (item_nodes (Visit node))) },
}

/// A pair, with its class, that a list may hold and its vehicle may serve.
#[derive(Clone, Copy)]
pub(crate) struct PairIn<'l, 'm, 'k> {
    pub(crate) list: LookedUpList<'l, 'm, 'k>,
    pub(crate) list_rows: &'k [ListRows],
    pub(crate) class: u32,
    pub(crate) pickup: u32,
    pub(crate) delivery: u32,
    ghost may_hold: { MayHold list.lookups.now.closed.model.now list.nodes.now (PickupAndDelivery pickup delivery) },
    ghost allowed: { IsTrue (list_all (allows_vehicle list.lookups.now.closed.model.now list.vehicle)
        (item_nodes (PickupAndDelivery pickup delivery))) },
}
