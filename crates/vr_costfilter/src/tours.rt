//! Lists that vehicles have or get, written out.

ghost use Rattle.vr_costfilter.specs.Tours.{IsTourOf};

use vr_model::Closed;

/// The list of a vehicle.
#[derive(Clone, Copy)]
pub struct Tour<'m, 'l> {
    /// The model.
    pub closed: Closed<'m>,
    /// The vehicle.
    pub v: u32,
    /// Its visits, in the order in which it comes to them.
    pub list: &'l [u32],
    /// They are distinct, and there are at most 1000.
    pub ghost sound: { IsTourOf closed.model.now v list.now },
}
