//! Changes with what is known of how early the lists after them can end.

ghost use Rattle.std.proofs.Props.{props};
ghost use Rattle.std.specs.Prelude.{◌≡◌, ◌<◌, length};
ghost use Rattle.vr_routes.specs.Pieces.{part_at};
ghost use Rattle.vr_model.specs.tables.WellFormedOnce.{IsWellFormed-prop};
ghost use Rattle.vr_costfilter.specs.EarlyParts.{AreEarlyInRange};
ghost use Rattle.vr_costfilter.specs.GlobalCosts.{IsPaidIn};

use vr_earliest::Earlies;
use vr_model::Model;
use vr_routes::Change;

/// A change of lists, and what the chosen schedules of the lists after it come to at least. That is how early each ends
/// and how short its span is, in each dimension in which anything is paid for spans (`vr_earliest`). `schedule_costs`
/// and `spreads` ask it what a change costs at least.
#[derive(Drop)]
pub struct EarlyChange<'a> {
    pub model: &'a Model,
    pub change: &'a Change,
    pub earlies: &'a Earlies,
    /// The model is well formed, and what is known in these dimensions is in its range.
    pub ghost sound: { AreEarlyInRange model.now change.now earlies.now } by { Prim.hlevel
        (props, IsWellFormed-prop) },
}

/// The same in a dimension whose global span has a coefficient.
#[derive(Drop)]
pub struct EarlyIn<'a, 'c> {
    pub early: &'a EarlyChange<'c>,
    pub d: u32,
    pub ghost sound: { IsPaidIn early.now.model.now d },
}

impl<'a> EarlyChange<'a> {
    /// The vehicle to which part `k` of it gives a list.
    pub fn vehicle(&self, k: usize) -> u32
        requires { k < length self.now.change.now }
        ensures value { result ≡ (part_at self.now.change.now k).vehicle }
        ensures known { result < length self.now.model.now.vehicles }
    {
        self.change.vehicle(k)
    }
}
