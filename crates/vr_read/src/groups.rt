//! The tables of groups, pairs and allowed vehicles.

ghost use Rattle.std.specs.Prelude.{◌≡◌, ◌||◌, ◌==◌};
ghost use Rattle.std.specs.List.{list_any};
ghost use Rattle.vr_model.specs.routes.Routes.{holds};
ghost use Rattle.vr_read.specs.Visits as visit_tables;

use crate::Visit;
use vr_json::{Array, Below, Cause, Count, Datum, Fields, ReadFail, Reader, Table, Whole};
use vr_model::limits::{GREATEST_COST, MOST_NODES};
use vr_model::{Allowed, Group, Pair, Vehicle};

/// Reads a node of a group: a visit that is in no earlier group, and not earlier in this one.
#[derive(Clone, Copy)]
pub struct GroupNode<'a> {
    pub visit: Visit<'a>,
    /// The groups before this one.
    pub groups: &'a [Group],
}

/// Reads a group.
#[derive(Clone, Copy)]
pub struct GroupTable<'a> {
    pub visit: Visit<'a>,
}

/// Reads a pair of a pickup and its delivery.
#[derive(Clone, Copy)]
pub struct PairTable<'a> {
    pub visit: Visit<'a>,
}

/// Reads one of this many vehicles, each once.
#[derive(Clone, Copy)]
pub struct AllowedVehicle {
    pub fleet: u32,
}

/// Reads the vehicles that a visit allows, in a model of this many vehicles.
#[derive(Clone, Copy)]
pub struct AllowedTable<'a> {
    pub visit: Visit<'a>,
    pub fleet: u32,
}

// Whether a number is in a list.
fn is_held(numbers: &[u32], number: u32) -> bool
    ensures { result ≡ holds numbers.now number }
{
    numbers.iter().any(|other| number == *other)
}

// Whether a node is in some group.
fn is_grouped(groups: &[Group], node: u32) -> bool
    ensures { result ≡ list_any (λ group. holds group.nodes node) groups.now }
{
    groups
        .iter()
        .any(|group| is_held(group.nodes.as_slice(), node))
}

// Whether a node is in some pair.
fn is_paired(pairs: &[Pair], node: u32) -> bool
    ensures { result ≡ visit_tables.is_paired pairs.now node }
{
    pairs
        .iter()
        .any(|pair| pair.pickup == node || pair.delivery == node)
}

// Whether some row is of this node.
fn has_allowed(rows: &[Allowed], node: u32) -> bool
    ensures { result ≡ list_any (λ row. row.node == node) rows.now }
{
    rows.iter().any(|row| row.node == node)
}

#[tactic(auto, unfolding(vr_json::specs::Reading::and_then, crate::specs::Visits::group_node))]
impl Reader for GroupNode<'_> {
    type Item = u32;

    ghost reads = { λ it earlier path d.
        visit_tables.group_node it.visit.nodes it.visit.vehicles.now it.groups.now earlier path d };

    fn read(&self, earlier: &[Self::Item], datum: Datum<'_, '_>) -> Result<Self::Item, ReadFail> {
        let node = self.visit.read(&[], datum)?;
        let stands = is_grouped(self.groups, node) || is_held(earlier, node);
        datum.refuse_if(stands, Cause::Repeated)?;
        Ok(node)
    }
}

#[tactic(auto, unfolding(vr_json::specs::Reading::and_then, crate::specs::Visits::group))]
impl Table for GroupTable<'_> {
    type Row = Group;

    ghost reads = { λ it earlier path d. visit_tables.group it.visit.nodes it.visit.vehicles.now earlier path d };

    fn read(&self, earlier: &[Self::Row], fields: Fields<'_, '_>) -> Result<Self::Row, ReadFail> {
        let members = Array {
            lo: 1,
            hi: MOST_NODES as usize,
            entry: GroupNode {
                visit: self.visit,
                groups: earlier,
            },
        };
        let cost = Whole {
            lo: 0,
            hi: GREATEST_COST,
        };
        let nodes = fields.required("nodes", &members)?;
        let count = nodes.len() as u32;
        let penalty = fields.maybe("penalty", &cost)?;
        let max = fields.optional("max", 1, &Count { lo: 1, hi: count })?;
        fields.known(&["nodes", "penalty", "max"])?;
        Ok(Group {
            nodes,
            penalty,
            max,
        })
    }
}

#[tactic(auto, unfolding(vr_json::specs::Reading::and_then, crate::specs::Visits::pair))]
impl Table for PairTable<'_> {
    type Row = Pair;

    ghost reads = { λ it earlier path d. visit_tables.pair it.visit.nodes it.visit.vehicles.now earlier path d };

    fn read(&self, earlier: &[Self::Row], fields: Fields<'_, '_>) -> Result<Self::Row, ReadFail> {
        let pickup = fields.required("pickup", &self.visit)?;
        fields.refuse_if(is_paired(earlier, pickup), Cause::Repeated, "pickup")?;
        let delivery = fields.required("delivery", &self.visit)?;
        let stands = is_paired(earlier, delivery) || pickup == delivery;
        fields.refuse_if(stands, Cause::Repeated, "delivery")?;
        fields.known(&["pickup", "delivery"])?;
        Ok(Pair { pickup, delivery })
    }
}

#[tactic(auto, unfolding(vr_json::specs::Reading::and_then, crate::specs::Visits::allowed_vehicle))]
impl Reader for AllowedVehicle {
    type Item = u32;

    ghost reads = { λ it earlier path d. visit_tables.allowed_vehicle it.fleet earlier path d };

    fn read(&self, earlier: &[Self::Item], datum: Datum<'_, '_>) -> Result<Self::Item, ReadFail> {
        let vehicle = Below { count: self.fleet }.read(&[], datum)?;
        datum.refuse_if(is_held(earlier, vehicle), Cause::Repeated)?;
        Ok(vehicle)
    }
}

#[tactic(auto, unfolding(vr_json::specs::Reading::and_then, crate::specs::Visits::allowed))]
impl Table for AllowedTable<'_> {
    type Row = Allowed;

    ghost reads = { λ it earlier path d.
        visit_tables.allowed it.visit.nodes it.fleet it.visit.vehicles.now earlier path d };

    fn read(&self, earlier: &[Self::Row], fields: Fields<'_, '_>) -> Result<Self::Row, ReadFail> {
        let permitted = Array {
            lo: 1,
            hi: self.fleet as usize,
            entry: AllowedVehicle { fleet: self.fleet },
        };
        let node = fields.required("node", &self.visit)?;
        fields.refuse_if(has_allowed(earlier, node), Cause::Repeated, "node")?;
        let vehicles = fields.required("vehicles", &permitted)?;
        fields.known(&["node", "vehicles"])?;
        Ok(Allowed { node, vehicles })
    }
}
