//! A vehicle in a dimension, and a list that it drives there.

ghost use Rattle.std.specs.Prelude.{◌<◌, length};
ghost use Rattle.vr_reach.specs.Lists.{IsUsed};

use crate::spliced::Spliced;
use vr_model::Closed;

// Vehicle `v` in dimension `d`, both of which exist. With it is asked what is looked up of them once.
#[derive(Clone, Copy)]
pub(crate) struct VehicleIn<'m> {
    pub(crate) closed: Closed<'m>,
    pub(crate) d: u32,
    pub(crate) v: u32,
    // The dimension exists.
    pub ghost dimension: { d < length closed.model.now.dimensions },
    // The vehicle exists.
    pub ghost vehicle: { v < length closed.model.now.vehicles },
}

// A list of vehicle `v` in dimension `d`.
#[derive(Clone, Copy)]
pub(crate) struct Driven<'m, 'l> {
    pub(crate) closed: Closed<'m>,
    pub(crate) d: u32,
    pub(crate) v: u32,
    pub(crate) list: &'l Spliced<'l>,
    // The dimension exists.
    pub ghost dimension: { d < length closed.model.now.dimensions },
    // The vehicle exists.
    pub ghost vehicle: { v < length closed.model.now.vehicles },
    // The list has distinct visits of the model, one at least.
    pub ghost used: { IsUsed closed.model.now list.now },
}
