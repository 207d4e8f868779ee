//! What is known of an item in a list, and whether the list has to be searched for it (`find_out`).

ghost use Rattle.std.specs.Prelude.{◌≡◌, ◌<◌, IfOk, length, replicate};
ghost use Rattle.vr_first_insert.specs.Kept.{begun_with as begun_with_of, best_of, better_choice};
ghost use Rattle.vr_first_insert.specs.Kept.{is_settled as is_settled_of, known_by_search as known_by_search_of};
ghost use Rattle.vr_first_insert.specs.Kept.{leaves_best as leaves_best_of};
ghost use Rattle.vr_first_insert.specs.Kept.{AddsAtLeast, BestAddsAtLeast, IsForgotten};
ghost use Rattle.vr_first_insert.specs.VehicleLists.{best_of_candidate, sought_in, tried_in, IsKnownOf, IsReadyList};
ghost use Rattle.vr_first_insert.specs.KeptRows.{list_model};
ghost use Rattle.vr_first_insert.specs.declared.known_best.KnownItem.TheVariants.{Nothing};

use crate::bound::{least_pair, least_visit};
use crate::choice::{InsertionChoice, improves, may_improve};
use crate::known_items::KnownItems;
use crate::one_list::best_in_list;
use crate::scratch::InsertScratch;
use crate::vehicle_list::CandidateIn;
use std::alloc::Global;
use vr_model::NoMemory;
use vr_rules::Item;

/// What the best choice of an item in a list adds at least.
#[derive(Clone, Copy, Drop)]
pub(crate) struct Bound {
    pub(crate) least: i64,
    /// Whether a search of the list told it, and not the arcs alone.
    pub(crate) searched: bool,
}

/// What is known of an item in a list.
#[derive(Clone, Copy, Drop)]
pub(crate) enum KnownItem {
    /// Nothing yet.
    Nothing,
    /// What the best choice adds at least, if there is one.
    AtLeast(Bound),
    /// The best choice; `None` if none is allowed.
    Best(Option<InsertionChoice>),
}

/// Whether what is known of an item of a class settles which is better, the best so far or the best in the list. It
/// does if the best in the list is known, or if none there is better.
pub(crate) fn is_settled(known: &KnownItem, class: u32, best: Option<InsertionChoice>) -> bool
    ensures { result ≡ is_settled_of known.now class best }
{
    match known {
        KnownItem::Nothing => false,
        KnownItem::AtLeast(bound) => !may_improve(best, class, bound.least),
        KnownItem::Best(_) => true,
    }
}

/// Whether the best so far stays, by what is known of an item of a class: no insertion into the list is better. Of most
/// lists this is so. It reads the class and the increase alone, and copies no choice.
#[inline]
pub(crate) fn leaves_best(known: &KnownItem, class: u32, best: &Option<InsertionChoice>) -> bool
    ensures { result ≡ leaves_best_of known.now class best.now }
{
    match known {
        KnownItem::Nothing => false,
        KnownItem::AtLeast(bound) => !may_improve(*best, class, bound.least),
        KnownItem::Best(Some(next)) => !may_improve(*best, next.class, next.increase),
        KnownItem::Best(None) => true,
    }
}

/// The better of the best so far and what is known to be best.
pub(crate) fn better_of(best: Option<InsertionChoice>, known: &KnownItem) -> Option<InsertionChoice>
    ensures { result ≡ best_of known.now best }
{
    match known {
        KnownItem::Best(Some(next)) => better(best, *next),
        _ => best,
    }
}

fn better(best: Option<InsertionChoice>, next: InsertionChoice) -> Option<InsertionChoice>
    ensures { result ≡ better_choice best next }
{
    if improves(best, next) {
        Some(next)
    } else {
        best
    }
}

/// What a candidate adds at least to a list, by the arcs at its places.
pub(crate) fn least_in(of: &CandidateIn<'_, '_, '_>) -> i64
    ensures { AddsAtLeast (list_model of.now.list) of.now.list.vehicle of.now.list.nodes.now
        of.now.candidate.item result }
{
    match of.candidate.item {
        Item::Visit(node) => least_visit(&of.list, node),
        Item::PickupAndDelivery(pickup, delivery) => least_pair(&of.list, pickup, delivery),
    }
}

// What a search tells of the best in the list, when it began with the best so far. If it found a better one, that is
// the best of the list. A search that began with nothing tells the best of the list, or that none is allowed. One that
// began with a best ends with one.
fn known_by_search(best: Option<InsertionChoice>, found: Option<InsertionChoice>) -> KnownItem
    ensures { result ≡ known_by_search_of best found }
{
    match (best, found) {
        (Some(best), Some(next)) => known_beside(best, next),
        (_, found) => KnownItem::Best(found),
    }
}

// The same if there was a best so far. If nothing in the list is better, then the best of the list, if there is one,
// adds no less.
fn known_beside(best: InsertionChoice, next: InsertionChoice) -> KnownItem
    ensures { result ≡ known_by_search_of (Some best) (Some next) }
{
    if improves(Some(best), next) {
        KnownItem::Best(Some(next))
    } else {
        KnownItem::AtLeast(Bound {
            least: best.increase,
            searched: true,
        })
    }
}

// What a search for an item begins with. For a pair it is the best so far, so that few places are tried. For a visit,
// whose best place is soon found, it is nothing. If a search told the bound, it is nothing too. What is found then is
// the best of the list, and serves until the list changes.
fn begun_with(item: Item, searched: bool, best: Option<InsertionChoice>) -> Option<InsertionChoice>
    ensures { result ≡ begun_with_of item searched best }
{
    if searched {
        return None;
    }
    match item {
        Item::Visit(_) => None,
        Item::PickupAndDelivery(_, _) => best,
    }
}

// What a search of a list tells that begins with this best, or with nothing (`begun_with`).
fn search_list(
    scratch: &mut InsertScratch,
    of: &CandidateIn<'_, '_, '_>,
    best: Option<InsertionChoice>,
) -> Result<KnownItem, NoMemory>
    requires { IsReadyList of.now.list of.now.list_rows.now }
    ensures { IfOk result (λ known. known ≡ sought_in of.now best) }
{
    let found = best_in_list(scratch, of, best)?;
    Ok(known_by_search(best, found))
}

/// What is known of a candidate in a list once it was asked whether it is better than the best so far.
pub(crate) fn find_out(
    scratch: &mut InsertScratch,
    of: &CandidateIn<'_, '_, '_>,
    known: KnownItem,
    best: Option<InsertionChoice>,
) -> Result<KnownItem, NoMemory>
    requires ready { IsReadyList of.now.list of.now.list_rows.now }
    requires known { IsKnownOf of.now known }
    ensures known { IfOk result (IsKnownOf of.now) }
    ensures better { IfOk result (λ known. best_of known best ≡ best_of_candidate of.now best) }
{
    match known {
        KnownItem::Best(_) => Ok(known),
        KnownItem::AtLeast(bound) => search_if_better(scratch, of, bound, best),
        KnownItem::Nothing => {
            let bound = Bound {
                least: least_in(of),
                searched: false,
            };
            search_if_better(scratch, of, bound, best)
        }
    }
}

// The same of a candidate of which a bound is known. If the bound is not better than the best so far, no more is known,
// and the list is not searched.
fn search_if_better(
    scratch: &mut InsertScratch,
    of: &CandidateIn<'_, '_, '_>,
    bound: Bound,
    best: Option<InsertionChoice>,
) -> Result<KnownItem, NoMemory>
    requires bound { BestAddsAtLeast (list_model of.now.list) of.now.list.vehicle of.now.list.nodes.now
        of.now.candidate bound.least }
    requires ready { IsReadyList of.now.list of.now.list_rows.now }
    ensures exact { IfOk result (λ known. known ≡ tried_in of.now bound best) }
    ensures known { IfOk result (IsKnownOf of.now) }
    ensures better { IfOk result (λ known. best_of known best ≡ best_of_candidate of.now best) }
{
    if !may_improve(best, of.candidate.class, bound.least) {
        return Ok(KnownItem::AtLeast(bound));
    }
    let begin = begun_with(of.candidate.item, bound.searched, best);
    search_list(scratch, of, begin)
}

/// For each of `vehicles` lists that nothing is known of any of `count` items.
pub(crate) fn nothing_known(
    alloc: Global,
    vehicles: usize,
    count: usize,
) -> Result<Vec<KnownItems>, NoMemory>
    ensures { IfOk result (λ known. known.items ≡ replicate vehicles (replicate count Nothing)) }
{
    let mut known = Vec::with_capacity(alloc, vehicles)?;
    for _v in 0..vehicles {
        known.push(KnownItems::with_none(alloc, count)?)?;
    }
    Ok(known)
}

/// Nothing is known of the list of vehicle `v` any more.
pub(crate) fn forget(known_items: &mut [KnownItems], v: u32)
    requires vehicle { v < length known_items.old }
    ensures { IsForgotten v known_items.old known_items.new }
{
    known_items[v as usize].forget();
}
