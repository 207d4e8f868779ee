//! Numbers for all visits, starts and ends.

ghost use Rattle.std.specs.Prelude.{◌≡◌, ◌+◌, ◌<◌, ◌≤◌, ◌++◌, false, length, map, take, slice_index, MatchOption, IfOk};
ghost use Rattle.vr_model.specs.routes.Routes.{holds};
ghost use Rattle.vr_model.specs.tables.WellFormed.{IsWellFormed};
ghost use Rattle.vr_routes.specs.Indices.{numbering, start_node_of, end_node_of};

use crate::routes::visits_of;
use crate::seats::Seating;
use std::alloc::Global;
use std::marker::Model;
use vr_model::{Model as RoutingModel, NoMemory};

/// The indices of a model (`RoutingIndexManager` in OR-Tools): first the visits ascending, then the starts of the
/// vehicles, then their ends. They are for users of the library: here tests alone open them, and moves name vehicles
/// and places.
#[derive(Drop)]
pub struct Indices {
    // One list: the visits, ascending.
    visits: Seating,
    starts: Vec<u32>,
    ends: Vec<u32>,
}

impl Model for Indices {
    ghost use Rattle.vr_model.specs.routes.Routes.{route};
    ghost use Rattle.vr_routes.specs.Indices.{Numbering, AreNumbered};

    ghost Value = { Numbering };

    ghost view = { λ i. record { visits = route i.visits.lists 0; starts = i.starts.items; ends = i.ends.items } };

    ghost invariant = { λ i. AreNumbered i.visits i.starts.items i.ends.items };
}

impl Indices {
    /// The indices of a model.
    pub fn new(alloc: Global, model: &RoutingModel) -> Result<Indices, NoMemory>
        requires well_formed { IsWellFormed model.now }
        ensures { IfOk result (λ indices. indices ≡ numbering model.now) }
    {
        let visits = visits_of(alloc, model)?;
        let starts = starts_of(alloc, model)?;
        let ends = ends_of(alloc, model)?;
        Ok(Indices {
            visits,
            starts,
            ends,
        })
    }

    /// How many visits there are.
    #[inline]
    pub fn visits(&self) -> u32
        ensures value { result ≡ length self.now.visits }
        ensures few { result ≤ 1000 }
    {
        self.visits.len(0) as u32
    }

    /// The index of a visit, `None` if the node is none.
    #[inline]
    pub fn index(&self, node: u32) -> Option<u32>
        ensures { MatchOption result (holds self.now.visits node ≡ false)
            (λ k. (k < length self.now.visits) × (slice_index self.now.visits k ≡ node)) }
    {
        if (node as usize) < self.visits.nodes() {
            return match self.visits.seat(node) {
                None => None,
                Some(seat) => Some(seat.place),
            };
        }
        None
    }

    /// The index of the start of a vehicle.
    #[inline]
    pub fn start(&self, v: u32) -> u32
        requires { v < length self.now.starts }
        ensures { result ≡ length self.now.visits + v }
    {
        self.visits.len(0) as u32 + v
    }

    /// The index of the end of a vehicle.
    #[inline]
    pub fn end(&self, v: u32) -> u32
        requires { v < length self.now.ends }
        ensures { result ≡ length self.now.visits + (length self.now.starts + v) }
    {
        self.visits() + (self.starts.len() as u32 + v)
    }

    /// The node of an index.
    #[inline]
    pub fn node(&self, index: u32) -> u32
        requires { index < length self.now.visits + (length self.now.starts + length self.now.ends) }
        ensures { result ≡ slice_index (self.now.visits ++ (self.now.starts ++ self.now.ends)) index }
    {
        let visits = self.visits();
        if index < visits {
            return self.visits.node_at(0, index);
        }
        let v = (index - visits) as usize;
        let vehicles = self.starts.len();
        if v < vehicles {
            return self.starts[v];
        }
        self.ends[v - vehicles]
    }
}

// The starts of the vehicles.
fn starts_of(alloc: Global, model: &RoutingModel) -> Result<Vec<u32>, NoMemory>
    ensures { IfOk result (λ starts. starts.items ≡ map start_node_of model.now.vehicles) }
{
    let mut starts = Vec::new(alloc);
    for vehicle in model.vehicles.as_slice() {
        starts.push(vehicle.start)?;
    }
    Ok(starts)
}

// The ends of the vehicles.
fn ends_of(alloc: Global, model: &RoutingModel) -> Result<Vec<u32>, NoMemory>
    ensures { IfOk result (λ ends. ends.items ≡ map end_node_of model.now.vehicles) }
{
    let mut ends = Vec::new(alloc);
    for vehicle in model.vehicles.as_slice() {
        ends.push(vehicle.end)?;
    }
    Ok(ends)
}
