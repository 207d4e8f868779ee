//! The cheapest offer for an item, if no schedules cost anything. A list in which the item adds too much to come first
//! is not looked through.

ghost use Rattle.std.specs.Prelude.{◌≡◌, ◌<◌, ◌++◌, List, [], ◌∷◌, IfOk, IfSome, IsTrue};
ghost use Rattle.std.specs.Prelude.{false, filter, length, option_to_list, true};
ghost use Rattle.std.specs.Option.{option_map};
ghost use Rattle.vr_model.specs.routes.Routes.{vehicles as vehicles_of};
ghost use Rattle.vr_model.specs.first.CheapestInsertion.{Insertion};
ghost use Rattle.vr_rules.specs.Placing.{item_nodes};
ghost use Rattle.vr_strings.specs.Sorting.{sorted_by};
ghost use Rattle.vr_ruin.specs.Cheapest.{cheaper_of, first_in, limit_of, IsCheapest};
ghost use Rattle.vr_ruin.specs.Makings.{is_asked as is_asked_of, MayGoBack};
ghost use Rattle.vr_ruin.specs.Offers.{offer as offer_of, offers, offers_of, rank_key};
ghost use Rattle.vr_ruin.specs.Ranks.{insertion_at};
ghost use Rattle.vr_ruin.specs.Timeless.{is_timeless};

use crate::making::is_asked;
use crate::ranking::{Priced, ranks_before};
use crate::trial::Trial;
use vr_model::NoMemory;
use vr_rules::Item;

// The one of two offers that comes first, if there is one already.
fn cheaper(best: Option<Priced>, next: Priced) -> Priced
    ensures { result ≡ cheaper_of best next }
{
    match best {
        Some(best) if ranks_before(best, next) => best,
        _ => next,
    }
}

// What an offer of vehicle `v` adds at most if it comes before the best one so far.
fn limit_beside(trial: &Trial<'_>, v: u32, best: Option<Priced>) -> Option<i64>
    requires vehicle { v < length trial.now.lists }
    requires best { IfSome best (IsCheapest trial.now.model trial.now.lists) }
    ensures { result ≡ limit_of trial.now.model trial.now.lists v best }
{
    let best = best?;
    Some(best.price - trial.fixed_beside(v))
}

// The cheaper of the best offer so far and that of vehicle `v` for an item.
fn take_offer(
    trial: &mut Trial<'_>,
    v: u32,
    item: Item,
    best: Option<Priced>,
) -> Result<Option<Priced>, NoMemory>
    requires timeless { IsTrue (is_timeless trial.old.model) }
    requires vehicle { v < length trial.old.lists }
    requires item { MayGoBack trial.old.model trial.old.lists item }
    requires best { IfSome best (IsCheapest trial.old.model trial.old.lists) }
    ensures best { IfOk result (λ next. IfSome next (IsCheapest trial.old.model trial.old.lists)) }
    ensures first { IfOk result (λ next. (xs : List Insertion)
        → option_map insertion_at best ≡ first_in (sorted_by (rank_key trial.old.model trial.old.lists) xs)
        → option_map insertion_at next ≡ first_in (sorted_by (rank_key trial.old.model trial.old.lists)
        (option_to_list (offer_of trial.old.model trial.old.lists (item_nodes item) v) ++ xs))) }
    ensures trial { trial.new ≡ trial.old }
{
    trial.know();
    let limit = limit_beside(trial, v, best);
    let found = trial.offer_within(v, item, limit)?;
    match found {
        None => Ok(best),
        Some(offer) => {
            let price = trial.price_by_arcs(offer);
            Ok(Some(cheaper(best, Priced { offer, price })))
        }
    }
}

// The same, if the vehicle is asked.
fn take_if_asked(
    trial: &mut Trial<'_>,
    are_used: bool,
    v: u32,
    item: Item,
    best: Option<Priced>,
) -> Result<Option<Priced>, NoMemory>
    requires timeless { IsTrue (is_timeless trial.old.model) }
    requires vehicle { v < length trial.old.lists }
    requires item { MayGoBack trial.old.model trial.old.lists item }
    requires best { IfSome best (IsCheapest trial.old.model trial.old.lists) }
    ensures best { IfOk result (λ next. IfSome next (IsCheapest trial.old.model trial.old.lists)) }
    ensures first { IfOk result (λ next. (xs : List Insertion)
        → option_map insertion_at best ≡ first_in (sorted_by (rank_key trial.old.model trial.old.lists) xs)
        → option_map insertion_at next ≡ first_in (sorted_by (rank_key trial.old.model trial.old.lists)
        (offers_of trial.old.model trial.old.lists (item_nodes item)
        (filter (is_asked_of trial.old.lists are_used) (v ∷ [])) ++ xs))) }
    ensures trial { trial.new ≡ trial.old }
{
    if !is_asked(trial, are_used, v) {
        return Ok(best);
    }
    take_offer(trial, v, item, best)
}

// The cheapest of the best offer so far and those of the used vehicles, or of those that are not used.
fn cheapest_among(
    trial: &mut Trial<'_>,
    are_used: bool,
    item: Item,
    best: Option<Priced>,
) -> Result<Option<Priced>, NoMemory>
    requires timeless { IsTrue (is_timeless trial.old.model) }
    requires item { MayGoBack trial.old.model trial.old.lists item }
    requires best { IfSome best (IsCheapest trial.old.model trial.old.lists) }
    ensures best { IfOk result (λ next. IfSome next (IsCheapest trial.old.model trial.old.lists)) }
    ensures first { IfOk result (λ next. (xs : List Insertion)
        → option_map insertion_at best ≡ first_in (sorted_by (rank_key trial.old.model trial.old.lists) xs)
        → option_map insertion_at next ≡ first_in (sorted_by (rank_key trial.old.model trial.old.lists)
        (offers_of trial.old.model trial.old.lists (item_nodes item)
        (filter (is_asked_of trial.old.lists are_used) (vehicles_of trial.old.lists)) ++ xs))) }
    ensures trial { trial.new ≡ trial.old }
{
    trial.know();
    let vehicles = trial.vehicles();
    let mut best = best;
    for w in 0..vehicles {
        // the last one first: each offer goes in front of those that do not come before it
        let v = vehicles - 1 - w;
        best = take_if_asked(trial, are_used, v, item, best)?;
    }
    Ok(best)
}

// The cheapest offer for an item, of all vehicles.
fn cheapest_wide(trial: &mut Trial<'_>, item: Item) -> Result<Option<Priced>, NoMemory>
    requires timeless { IsTrue (is_timeless trial.old.model) }
    requires item { MayGoBack trial.old.model trial.old.lists item }
    ensures best { IfOk result (λ best. IfSome best (IsCheapest trial.old.model trial.old.lists)) }
    ensures first { IfOk result (λ best. option_map insertion_at best ≡ first_in (sorted_by
        (rank_key trial.old.model trial.old.lists) (offers trial.old.model true trial.old.lists (item_nodes item)))) }
    ensures trial { trial.new ≡ trial.old }
{
    let best = cheapest_among(trial, false, item, None)?;
    cheapest_among(trial, true, item, best)
}

// The cheapest offer for an item, of the used vehicles, and of the others only if none of these has any.
fn cheapest_narrow(trial: &mut Trial<'_>, item: Item) -> Result<Option<Priced>, NoMemory>
    requires timeless { IsTrue (is_timeless trial.old.model) }
    requires item { MayGoBack trial.old.model trial.old.lists item }
    ensures best { IfOk result (λ best. IfSome best (IsCheapest trial.old.model trial.old.lists)) }
    ensures first { IfOk result (λ best. option_map insertion_at best ≡ first_in (sorted_by
        (rank_key trial.old.model trial.old.lists) (offers trial.old.model false trial.old.lists (item_nodes item)))) }
    ensures trial { trial.new ≡ trial.old }
{
    let best = cheapest_among(trial, true, item, None)?;
    if best.is_some() {
        return Ok(best);
    }
    cheapest_among(trial, false, item, None)
}

/// The offer for an item that comes first by price and vehicle, if no schedules cost anything. The used vehicles are
/// asked. The others are asked too if the step is wide or no used one has an offer.
pub(crate) fn cheapest(
    trial: &mut Trial<'_>,
    wide: bool,
    item: Item,
) -> Result<Option<Priced>, NoMemory>
    requires timeless { IsTrue (is_timeless trial.old.model) }
    requires item { MayGoBack trial.old.model trial.old.lists item }
    ensures best { IfOk result (λ best. IfSome best (IsCheapest trial.old.model trial.old.lists)) }
    ensures first { IfOk result (λ best. option_map insertion_at best ≡ first_in (sorted_by
        (rank_key trial.old.model trial.old.lists) (offers trial.old.model wide trial.old.lists (item_nodes item)))) }
    ensures trial { trial.new ≡ trial.old }
{
    if wide {
        cheapest_wide(trial, item)
    } else {
        cheapest_narrow(trial, item)
    }
}
