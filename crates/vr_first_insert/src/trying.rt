//! Whether a list stays open with an item put in.

ghost use Rattle.std.specs.Prelude.{◌≡◌, IfOk, IsTrue};
ghost use Rattle.std.specs.List.{list_all};
ghost use Rattle.vr_model.specs.routes.Routes.{is_distinct};
ghost use Rattle.vr_model.specs.tables.Tables.{is_visit};
ghost use Rattle.vr_lists.specs.Pairs.{keeps_pairs as keeps_pairs_of};
ghost use Rattle.vr_model.specs.routes.Rules.{is_route_open};
ghost use Rattle.vr_first_insert.specs.Placings.{placed};
ghost use Rattle.vr_first_insert.specs.VehicleLists.{MayTestDelivery, MayTestVisit};
ghost use Rattle.vr_first_insert.specs.declared.choice.Placing.TheVariants.{One};
ghost use Rattle.vr_first_insert.specs.KeptRows.{list_model};

use crate::list_rows::is_feasible_between;
use crate::probes::Probes;
use crate::vehicle_list::{LookedUpList, PairIn, VisitIn};
use std::alloc::Global;
use vr_lists::{PairPlaces, keeps_pairs};
use vr_model::{NoMemory, Seq};
use vr_reach::Walk;

/// What is written over for each place that is tried.
#[derive(Drop)]
pub(crate) struct Trying {
    pub(crate) walk: Walk,
    pairs: PairPlaces,
    /// The list with an item placed in it.
    pub(crate) longer: Seq<u32>,
}

impl Trying {
    /// It takes no memory.
    pub(crate) fn new(alloc: Global) -> Trying {
        Trying {
            walk: Walk::new(alloc),
            pairs: PairPlaces::new(),
            longer: Seq::new(alloc),
        }
    }
}

// Whether the list in `longer` serves each pair in order, and as the policy of the vehicle of `list` asks.
#[inline(always)]
fn keeps_its_pairs(trying: &mut Trying, list: &LookedUpList<'_, '_, '_>) -> bool
    requires visits { IsTrue (list_all (is_visit (list_model list.now)) trying.old.longer) }
    requires distinct { IsTrue (is_distinct trying.old.longer) }
    ensures keeps { result ≡ keeps_pairs_of (list_model list.now) list.now.vehicle trying.old.longer }
    ensures longer { trying.new.longer ≡ trying.old.longer }
{
    let lookups = list.lookups;
    let longer = trying.longer.as_slice();
    keeps_pairs(
        lookups.closed.model,
        list.vehicle,
        longer,
        &mut trying.pairs,
    )
}

/// Whether the vehicle of a list may drive it with a visit before place `t`, as `longer` has it. Walks go over the two
/// arcs that are new. Whether the vehicle may visit the node was asked before (`best_in_list`), and so was whether the
/// groups have room (`search`).
pub(crate) fn may_visit(
    trying: &mut Trying,
    visit: &VisitIn<'_, '_, '_>,
    t: usize,
) -> Result<bool, NoMemory>
    requires { MayTestVisit visit.now t trying.old.longer }
    ensures open { IfOk result (λ may. may
        ≡ is_route_open (list_model visit.now.list) visit.now.list.vehicle
        (placed visit.now.list.nodes.now (One visit.now.node t))) }
    ensures longer { trying.new.longer ≡ trying.old.longer }
{
    let list = &visit.list;
    let longer = trying.longer.as_slice();
    let back = list.nodes.len() - t;
    if !is_feasible_between(visit.list_rows, list, longer, t, back, &mut trying.walk)? {
        return Ok(false);
    }
    // that the visit is in no pair is not known here, so the pairs are asked
    Ok(keeps_its_pairs(trying, list))
}

/// Whether the vehicle of a list may drive it with a pair in it, the delivery before place `t`, as `longer` has it.
/// What the list with the pickup reaches at the node before the delivery is known. With the pickup in front, that is
/// its stop `t + 1`.
pub(crate) fn may_serve(
    trying: &mut Trying,
    probes: &Probes,
    pair: &PairIn<'_, '_, '_>,
    t: usize,
) -> Result<bool, NoMemory>
    requires { MayTestDelivery pair.now t probes.now trying.old.longer }
    ensures open { IfOk result (λ may. may
        ≡ is_route_open (list_model pair.now.list) pair.now.list.vehicle trying.old.longer) }
    ensures longer { trying.new.longer ≡ trying.old.longer }
{
    let list = &pair.list;
    let longer = trying.longer.as_slice();
    let back = list.nodes.len() - t;
    if !probes.goes_from(pair.list_rows, list, longer, t + 1, back, &mut trying.walk)? {
        return Ok(false);
    }
    Ok(keeps_its_pairs(trying, list))
}
