//! The best places of a pair in one route.

ghost use Rattle.std.specs.Prelude.{◌≡◌, ◌+◌, ◌<◌, ◌≤◌, IfOk, None, length, map, suc};
ghost use Rattle.vr_model.specs.tables.Numbers.{from_to};
ghost use Rattle.vr_ruin.specs.Known.{IsReady};
ghost use Rattle.vr_ruin.specs.Placings.{best_of, placings_of, MayHold};
ghost use Rattle.vr_ruin.specs.declared.placing.Placing.TheVariants.{Two};
ghost use Rattle.vr_rules.specs.declared.items.Item.TheVariants.{PickupAndDelivery};

use crate::asking::{Asker, VehicleList};
use crate::placing::{Offer, Placing, bound_beside};
use vr_model::NoMemory;

impl<'m> Asker<'m> {
    // The best of the best so far and the places of a pair with the pickup at place `s`. Places of the delivery at
    // which the pair adds more than the best so far are passed over.
    fn best_delivery(
        &mut self,
        list: VehicleList<'_, '_>,
        pickup: u32,
        delivery: u32,
        s: usize,
        best: Option<Offer>,
    ) -> Result<Option<Offer>, NoMemory>
        requires vehicle { list.vehicle < length self.old.vehicles }
        requires place { s ≤ length list.nodes.now }
        requires may { MayHold self.old list.nodes.now (PickupAndDelivery pickup delivery) }
        requires ready { IsReady self.old list.vehicle list.nodes.now list.known.now
            (PickupAndDelivery pickup delivery) }
        ensures best { IfOk result (λ better. better ≡ best_of self.old list.entry.vehicle list.entry.nodes.now best
            (map (Two pickup delivery s) (from_to s (suc (length list.entry.nodes.now))))) }
        ensures model { self.new ≡ self.old }
    {
        let together = Placing::Two(pickup, delivery, s as u32, s as u32);
        let near = self.weigh(list, best, together)?;
        self.best_further(list, pickup, delivery, s, near)
    }

    // The same of the places of the delivery after those of the pickup.
    fn best_further(
        &mut self,
        list: VehicleList<'_, '_>,
        pickup: u32,
        delivery: u32,
        s: usize,
        best: Option<Offer>,
    ) -> Result<Option<Offer>, NoMemory>
        requires vehicle { list.vehicle < length self.old.vehicles }
        requires place { s ≤ length list.nodes.now }
        requires may { MayHold self.old list.nodes.now (PickupAndDelivery pickup delivery) }
        requires ready { IsReady self.old list.vehicle list.nodes.now list.known.now
            (PickupAndDelivery pickup delivery) }
        ensures best { IfOk result (λ better. better ≡ best_of self.old list.entry.vehicle list.entry.nodes.now best
            (map (Two pickup delivery s) (from_to (s + 1) (suc (length list.entry.nodes.now))))) }
        ensures model { self.new ≡ self.old }
    {
        let n = list.nodes.len();
        let alone = self.alone(list, pickup, s);
        let mut best = best;
        let mut t = s + 1;
        'places: while t <= n {
            let place = self.next(list, delivery, t, bound_beside(best, alone));
            if place > n {
                return Ok(best);
            }
            let placing = Placing::Two(pickup, delivery, s as u32, place as u32);
            best = self.weigh(list, best, placing)?;
            t = place + 1;
        }
        Ok(best)
    }

    /// The best places of a pair.
    pub(crate) fn best_pair(
        &mut self,
        list: VehicleList<'_, '_>,
        pickup: u32,
        delivery: u32,
    ) -> Result<Option<Offer>, NoMemory>
        requires vehicle { list.vehicle < length self.old.vehicles }
        requires may { MayHold self.old list.nodes.now (PickupAndDelivery pickup delivery) }
        requires ready { IsReady self.old list.vehicle list.nodes.now list.known.now
            (PickupAndDelivery pickup delivery) }
        ensures best { IfOk result (λ best. best ≡ best_of self.old list.entry.vehicle list.entry.nodes.now None
            (placings_of list.entry.nodes.now (PickupAndDelivery pickup delivery))) }
        ensures model { self.new ≡ self.old }
    {
        let mut best = None;
        for s in 0..list.nodes.len() + 1 {
            best = self.best_delivery(list, pickup, delivery, s, best)?;
        }
        Ok(best)
    }
}
