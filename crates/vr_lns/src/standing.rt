//! One round of a search.

ghost use Rattle.std.specs.Prelude.{◌≡◌, ◌+◌, ◌≤◌, IfOk, OnOk, OnErr};
ghost use Rattle.vr_lns.specs.Standing.{round_events, lists_after_round, round_at, round_end};
ghost use Rattle.vr_lns.specs.Standing.{standing_after, HoldValid};
ghost use Rattle.vr_watch.specs.Told.{Reported, ReportedInPart};

use crate::Rebuild;
use crate::cutting::Cutting;
use crate::rounds::{RoundEnd, round};
use vr_descent::Progress;
use vr_model::{Kind, Limit, NoMemory};
use vr_routes::Routes;
use vr_watch::{Watch, note_all};

/// One round: the first acceptable cut is made and told to the watchers; the tries are counted.
///
/// The only refusal is want of memory. The routes then hold valid lists, and the first few watchers may know the event
/// in hand.
pub(crate) fn advance<R: Rebuild>(
    at: &mut Progress,
    cutting: &mut Cutting<'_>,
    rebuild: &mut R,
    routes: &mut Routes,
    limit: Limit,
    watch: &mut Vec<Box<dyn Watch>>,
) -> Result<RoundEnd, NoMemory>
    requires knows { R.knows rebuild.old cutting.old.model }
    requires holds { HoldValid cutting.old.model routes.old at.old.cost }
    requires tries { limit.tries ≤ 1000000000 }
    requires used { at.old.used ≤ limit.tries }
    requires found { at.old.found ≤ 1000000000 }
    ensures ends { IfOk result (λ ended. ended
        ≡ round_end (round_at cutting.old.model cutting.old.most limit routes.old.lists at.old.used)) }
    ensures standing { OnOk result (at.new ≡ standing_after cutting.old.model limit at.old
        (round_at cutting.old.model cutting.old.most limit routes.old.lists at.old.used)) }
    ensures lists { OnOk result (routes.new.lists ≡ lists_after_round routes.old.lists
        (round_at cutting.old.model cutting.old.most limit routes.old.lists at.old.used)) }
    ensures told { OnOk result (Reported (λ w later. after w later) watch.old.items watch.new.items
        (round_events cutting.old.model at.old.used
        (round_at cutting.old.model cutting.old.most limit routes.old.lists at.old.used))) }
    ensures told_in_part { OnErr result (ReportedInPart (λ w later. after w later) watch.old.items watch.new.items
        (round_events cutting.old.model at.old.used
        (round_at cutting.old.model cutting.old.most limit routes.old.lists at.old.used))) }
    ensures holds { HoldValid cutting.old.model routes.new at.new.cost }
    ensures cutter { cutting.new ≡ cutting.old }
    ensures knows { OnOk result (R.knows rebuild.new cutting.old.model) }
    ensures made { OnOk result (R.made rebuild.new + at.old.used ≤ R.made rebuild.old + at.new.used) }
    ensures made_at_most { OnErr result (R.made rebuild.new + at.old.used ≤ R.made rebuild.old + limit.tries) }
{
    let ended = round(
        cutting,
        rebuild,
        routes,
        &mut at.cost,
        limit.tries - at.used,
    )?;
    match ended {
        RoundEnd::Accepted { place } => {
            at.used += place;
            at.found += 1;
            note_all(watch, at.event(Kind::Move))?;
        }
        RoundEnd::Complete { length } => at.used += length,
        RoundEnd::Short => at.used = limit.tries,
    }
    Ok(ended)
}
