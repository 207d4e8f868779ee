//! What a whole file says.

ghost use Rattle.std.specs.Prelude.{◌≡◌};
ghost use Rattle.vr_tsplib.specs.Files as files;
ghost use Rattle.vr_tsplib.specs.Rows as row_tables;

use crate::files::State;
use crate::flaws::{Flaw, refuse_if};
use crate::heads::{Head, LinePlace, WeightFormat, WeightType};
use crate::section_rows::DemandRow;

/// How the distances of nodes are given.
#[derive(Clone, Copy)]
pub enum Distances {
    /// By the points of the nodes in the plane.
    Plane,
    /// By all weights, row by row.
    Full,
    /// By the weights of each node from the second on to all lower nodes.
    Lower,
}

/// What a whole file says, beside the rows of its sections.
#[derive(Clone, Copy)]
pub struct Problem {
    pub nodes: u32,
    pub capacity: u64,
    /// The depot, as the file numbers the nodes, from 1.
    pub depot: u32,
    pub distances: Distances,
}

/// The demand of a node: `complete` asks that of the depot, `trees` that of each node. It is 0 if the node has no row,
/// which cannot be after a whole section.
pub(crate) fn demand_of(rows: &[DemandRow], node: u32) -> u32
    ensures { result ≡ row_tables.demand_of rows.now node }
{
    for row in rows {
        if row.node == node {
            return row.demand;
        }
    }
    0
}

// Whether a file that ended here ended within a section.
fn is_inside(place: LinePlace) -> bool
    ensures { result ≡ files.is_inside place }
{
    match place {
        LinePlace::Outside | LinePlace::Ended => false,
        _ => true,
    }
}

// How distances are given by weights of a format; `None` of `Function`, with which no section of weights begins.
fn of_format(format: WeightFormat) -> Option<Distances>
    ensures { result ≡ files.of_format format }
{
    match format {
        WeightFormat::FullMatrix => Some(Distances::Full),
        WeightFormat::LowerRow => Some(Distances::Lower),
        WeightFormat::Function => None,
    }
}

// How distances are given by weights of the format, if there is one.
fn of_formats(format: Option<WeightFormat>) -> Option<Distances>
    ensures { result ≡ files.of_formats format }
{
    match format {
        None => None,
        Some(format) => of_format(format),
    }
}

// How the distances are given. It is `None` if the section that they come from, of coordinates or of weights, did not
// come.
fn distances_of(weights: WeightType, head: Head) -> Option<Distances>
    ensures { result ≡ files.distances_of weights head }
{
    match weights {
        WeightType::Euclidean if head.has_sites => Some(Distances::Plane),
        WeightType::Explicit if head.has_weights => of_formats(head.weight_format),
        _ => None,
    }
}

/// What a whole file says.
///
/// The flaw `Missing` comes if the file ended within a section, or without something that must be there. After that,
/// `DepotDemand` comes if the depot has a demand.
#[tactic(auto, unfolding(vr_json::specs::Reading::and_then, crate::specs::Files::complete))]
pub(crate) fn complete(state: &State) -> Result<Problem, Flaw>
    ensures { result ≡ files.complete state.now }
{
    let head = state.head;
    refuse_if(is_inside(head.place), Flaw::Missing)?;
    refuse_if(!head.is_cvrp, Flaw::Missing)?;
    let nodes = head.nodes.ok_or(Flaw::Missing)?;
    let capacity = head.capacity.ok_or(Flaw::Missing)?;
    let weights = head.weight_type.ok_or(Flaw::Missing)?;
    refuse_if(!head.has_demands, Flaw::Missing)?;
    let depot = head.depot.ok_or(Flaw::Missing)?;
    let distances = distances_of(weights, head).ok_or(Flaw::Missing)?;
    let demand = demand_of(state.demands.as_slice(), depot);
    refuse_if(demand != 0, Flaw::DepotDemand)?;
    Ok(Problem {
        nodes,
        capacity,
        depot,
        distances,
    })
}
