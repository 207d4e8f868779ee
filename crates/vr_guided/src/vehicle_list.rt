//! The list of a vehicle.

ghost use Rattle.std.specs.Prelude.{◌<◌, length};
ghost use Rattle.vr_guided.specs.Lists.{AreFewNodes};

use vr_model::Closed;

/// A vehicle of a model with its list, of at most 1000 nodes.
#[derive(Clone, Copy)]
pub struct VehicleList<'m, 'r> {
    pub closed: Closed<'m>,
    pub vehicle: u32,
    pub nodes: &'r [u32],
    /// The model has the vehicle.
    pub ghost there: { vehicle < length closed.model.now.vehicles },
    /// The model has the nodes, and they are few.
    pub ghost few: { AreFewNodes closed.model.now nodes.now },
}
