//! A round of cuts, up to the first that is acceptable.

ghost use Rattle.std.specs.Prelude.{◌≡◌, ◌+◌, ◌<◌, ◌≤◌, IfOk, OnErr, OnOk, length};
ghost use Rattle.vr_model.specs.routes.Routes.{route};
ghost use Rattle.vr_lns.specs.Cuts.{accepted_by, cuts_of};
ghost use Rattle.vr_lns.specs.Rounds.{round as round_of, round_from};
ghost use Rattle.vr_lns.specs.Standing.{lists_after_round, round_end, tries_in_round, HoldValid};

use crate::Rebuild;
use crate::cutting::{Cut, Cutting};
use vr_model::NoMemory;
use vr_routes::Routes;

/// How a round of cuts ends.
#[derive(Clone, Copy)]
pub enum RoundEnd {
    /// The first acceptable cut is at this place among the cuts, counted from 1. The routes took its result over.
    Accepted { place: u64 },
    /// No cut is acceptable; there are `length` of them.
    Complete { length: u64 },
    /// The tries ran out before the cuts did.
    Short,
}

// Tries the cuts of the list of vehicle `v`, after `tried` others of which none is acceptable. These count in `rest`,
// and in the place or the number that it ends with.
fn cut_list<R: Rebuild>(
    cutting: &mut Cutting<'_>,
    rebuild: &mut R,
    routes: &mut Routes,
    total: &mut i64,
    v: u32,
    tried: u64,
    rest: u64,
) -> Result<RoundEnd, NoMemory>
    requires knows { R.knows rebuild.old cutting.old.model }
    requires holds { HoldValid cutting.old.model routes.old total.old }
    requires vehicle { v < length routes.old.lists }
    requires tried { tried ≤ rest }
    ensures ends { IfOk result (λ ended. ended
        ≡ round_end (round_from tried (accepted_by cutting.old.model cutting.old.most routes.old.lists) rest
        (cuts_of v (route routes.old.lists v)))) }
    ensures lists { OnOk result (routes.new.lists ≡ lists_after_round routes.old.lists
        (round_from tried (accepted_by cutting.old.model cutting.old.most routes.old.lists) rest
        (cuts_of v (route routes.old.lists v)))) }
    ensures holds { HoldValid cutting.old.model routes.new total.new }
    ensures cutter { cutting.new ≡ cutting.old }
    ensures knows { OnOk result (R.knows rebuild.new cutting.old.model) }
    ensures made { IfOk result (λ ended. R.made rebuild.new + tried ≤ R.made rebuild.old + tries_in_round rest ended) }
    ensures made_at_most { OnErr result (R.made rebuild.new + tried ≤ R.made rebuild.old + rest) }
{
    let mut place = tried;
    for a in 0..routes.len(v) {
        if place == rest {
            return Ok(RoundEnd::Short);
        }
        place += 1;
        let at = Cut {
            vehicle: v,
            place: a,
        };
        if cutting.try_cut(rebuild, routes, total, at)? {
            return Ok(RoundEnd::Accepted { place });
        }
    }
    Ok(RoundEnd::Complete { length: place })
}

/// Tries the cuts of the routes in order, at most `rest` of them, up to the first that is acceptable. The routes take
/// its result over. Each try rebuilds at most once.
///
/// The only refusal is want of memory. The routes are then as before.
pub(crate) fn round<R: Rebuild>(
    cutting: &mut Cutting<'_>,
    rebuild: &mut R,
    routes: &mut Routes,
    total: &mut i64,
    rest: u64,
) -> Result<RoundEnd, NoMemory>
    requires knows { R.knows rebuild.old cutting.old.model }
    requires holds { HoldValid cutting.old.model routes.old total.old }
    ensures ends { IfOk result (λ ended. ended
        ≡ round_end (round_of cutting.old.model cutting.old.most routes.old.lists rest)) }
    ensures lists { OnOk result (routes.new.lists ≡ lists_after_round routes.old.lists
        (round_of cutting.old.model cutting.old.most routes.old.lists rest)) }
    ensures holds { HoldValid cutting.old.model routes.new total.new }
    ensures cutter { cutting.new ≡ cutting.old }
    ensures knows { OnOk result (R.knows rebuild.new cutting.old.model) }
    ensures made { IfOk result (λ ended. R.made rebuild.new ≤ R.made rebuild.old + tries_in_round rest ended) }
    ensures made_at_most { OnErr result (R.made rebuild.new ≤ R.made rebuild.old + rest) }
{
    let mut tried = 0;
    for v in 0..routes.vehicles() {
        let ended = cut_list(cutting, rebuild, routes, total, v, tried, rest)?;
        match ended {
            RoundEnd::Complete { length } => tried = length,
            _ => return Ok(ended),
        }
    }
    Ok(RoundEnd::Complete { length: tried })
}
