//! The lists that are asked for the best insertion of an item, and what it adds at least.

ghost use Rattle.std.specs.Prelude.{◌≡◌, ◌<◌, IfOk, OnOk, length};
ghost use Rattle.vr_model.specs.routes.Routes.{route};
ghost use Rattle.vr_first_insert.specs.Kept.{candidate_at, BestAddsAtLeast};
ghost use Rattle.vr_first_insert.specs.Asking.{best_asked, best_asked_of_each, items_model, AreAsked, AreKnownIn};
ghost use Rattle.vr_first_insert.specs.Asking.{AreKnownInEach, MayAsk, MayAskEach, MayBeHeld};

use crate::choice::InsertionChoice;
use crate::known_best::{better_of, find_out, is_settled, least_in};
use crate::known_items::KnownItems;
use crate::list_rows::ListRows;
use crate::scratch::InsertScratch;
use crate::vehicle_list::{CandidateIn, LookedUpList};
use vr_model::{NoMemory, Seq};
use vr_plan::Lookups;
use vr_rules::Candidate;

/// What is put into lists: the items of a model, with what was looked up of it.
#[derive(Clone, Copy)]
pub(crate) struct Items<'l, 'm, 'c> {
    pub(crate) lookups: &'l Lookups<'m>,
    pub(crate) candidates: &'c [Candidate],
}

/// Lists with what is kept of them, and what may be put into them.
#[derive(Clone, Copy)]
pub(crate) struct AskedLists<'l, 'm, 'c, 'k> {
    pub(crate) items: Items<'l, 'm, 'c>,
    pub(crate) list_rows: &'k [ListRows],
    pub(crate) lists: &'k [Seq<u32>],
}

// The better of the best so far and the best insertion of candidate `i` into the list of vehicle `v`. What is known of
// the candidates in that list is in `known_here`.
fn settle(
    scratch: &mut InsertScratch,
    on: &AskedLists<'_, '_, '_, '_>,
    v: usize,
    i: usize,
    known_here: &mut KnownItems,
    best: Option<InsertionChoice>,
) -> Result<Option<InsertionChoice>, NoMemory>
    requires { MayAsk on.now v i known_here.old }
    ensures best { IfOk result (λ chosen. chosen ≡ best_asked on.now v i best) }
    ensures known { OnOk result (AreKnownIn on.now v known_here.new) }
{
    let candidates = on.items.candidates;
    let known = known_here.get(i);
    if is_settled(&known, candidates[i].class, best) {
        return Ok(better_of(best, &known));
    }
    ask(scratch, on, v, i, known_here, best)
}

// The same if what is known does not settle it: the list is asked, and its answer is written. It is a function of its
// own, so that what it needs is no burden when nothing is asked.
#[inline(never)]
fn ask(
    scratch: &mut InsertScratch,
    on: &AskedLists<'_, '_, '_, '_>,
    v: usize,
    i: usize,
    known_here: &mut KnownItems,
    best: Option<InsertionChoice>,
) -> Result<Option<InsertionChoice>, NoMemory>
    requires { MayAsk on.now v i known_here.old }
    ensures best { IfOk result (λ chosen. chosen ≡ best_asked on.now v i best) }
    ensures known { OnOk result (AreKnownIn on.now v known_here.new) }
{
    let candidates = on.items.candidates;
    let candidate = candidates[i];
    let known = known_here.get(i);
    let lists = on.lists;
    let nodes = lists[v].as_slice();
    let list = LookedUpList {
        lookups: on.items.lookups,
        vehicle: v as u32,
        nodes,
    };
    let of = CandidateIn {
        list,
        list_rows: on.list_rows,
        candidate,
    };
    let told = find_out(scratch, &of, known, best)?;
    known_here.set(i, told);
    Ok(better_of(best, &told))
}

// Takes the better of the best so far and the best insertion of candidate `i` into the list of vehicle `v`. Most lists
// leave the best so far as it is, by what is known of the candidate there. Then nothing is copied.
fn settle_over(
    scratch: &mut InsertScratch,
    on: &AskedLists<'_, '_, '_, '_>,
    v: usize,
    i: usize,
    known_here: &mut KnownItems,
    best: &mut Option<InsertionChoice>,
) -> Result<(), NoMemory>
    requires { MayAsk on.now v i known_here.old }
    ensures best { OnOk result (best.new ≡ best_asked on.now v i best.old) }
    ensures known { OnOk result (AreKnownIn on.now v known_here.new) }
{
    let candidates = on.items.candidates;
    if known_here.leaves_best(i, candidates[i].class, best) {
        return Ok(());
    }
    *best = settle(scratch, on, v, i, known_here, *best)?;
    Ok(())
}

/// The better of the best so far and the best insertion of candidate `i` into any list. `known_items` has, for each
/// list, what is known of the candidates in it.
pub(crate) fn best_in_lists(
    scratch: &mut InsertScratch,
    on: &AskedLists<'_, '_, '_, '_>,
    i: usize,
    known_items: &mut [KnownItems],
    best: Option<InsertionChoice>,
) -> Result<Option<InsertionChoice>, NoMemory>
    requires { MayAskEach on.now i known_items.old }
    ensures best { IfOk result (λ chosen. chosen ≡ best_asked_of_each on.now i best) }
    ensures known { OnOk result (AreKnownInEach on.now known_items.new) }
{
    let mut best = best;
    for v in 0..on.lists.len() {
        let known_here = &mut known_items[v];
        settle_over(scratch, on, v, i, known_here, &mut best)?;
    }
    Ok(best)
}

/// What candidate `i` adds at least to the list of vehicle `v`.
pub(crate) fn adds_at_least(on: &AskedLists<'_, '_, '_, '_>, v: usize, i: usize) -> i64
    requires candidate { i < length on.now.items.candidates.now }
    requires may_hold { MayBeHeld on.now i }
    requires asked { AreAsked on.now }
    requires there { v < length on.now.lists.now }
    ensures { BestAddsAtLeast (items_model on.now.items) v (route on.now.lists.now v)
        (candidate_at on.now.items.candidates.now i) result }
{
    let candidate = on.items.candidates[i];
    let lists = on.lists;
    let nodes = lists[v].as_slice();
    let list = LookedUpList {
        lookups: on.items.lookups,
        vehicle: v as u32,
        nodes,
    };
    let of = CandidateIn {
        list,
        list_rows: on.list_rows,
        candidate,
    };
    least_in(&of)
}
