//! An item in its turn, and all of them.

ghost use Rattle.std.specs.Prelude.{◌≡◌, ◌<◌, ◌≤ℤ◌, ◌^◌, ◌||◌, ◌==◌, All, IfOk, IfSome, OnOk, false, int_lt};
ghost use Rattle.std.specs.Prelude.{length, map, not, pos};
ghost use Rattle.std.specs.Option.{option_map};
ghost use Rattle.vr_model.specs.tables.Numbers.{total_by};
ghost use Rattle.vr_model.specs.routes.Routes.{is_active};
ghost use Rattle.vr_model.specs.first.Items.{class, first_node};
ghost use Rattle.vr_rules.specs.Placing.{item_nodes, AreCandidates, IsCandidate};
ghost use Rattle.vr_strings.specs.Turns.{item_at};
ghost use Rattle.vr_ruin.specs.Makings.{AreInTurn, IsRanked, MayGoBack};
ghost use Rattle.vr_ruin.specs.Offers.{offer_at, penalty_at as penalty_at_of, put_back as put_back_of, recreated};
ghost use Rattle.vr_ruin.specs.Offers.{with_offer};
ghost use Rattle.vr_ruin.specs.Ranks.{insertion_at};

use crate::cheapest::cheapest;
use crate::making::{chosen, rank_all};
use crate::ranking::Priced;
use crate::trial::Trial;
use vr_lists::NodeTables;
use vr_model::NoMemory;
use vr_rules::{Candidate, Item};
use vr_strings::Words;

// The penalty of the group of a node, 0 if there is none.
fn penalty_at(nodes: &NodeTables<'_>, node: u32) -> i64
    ensures value { result ≡ penalty_at_of nodes.now node }
    ensures low { pos 0 ≤ℤ result }
    ensures high { result ≤ℤ pos (2 ^ 40) }
{
    let model = nodes.model();
    let g = nodes.group_number(node) as usize;
    if g >= model.groups.len() {
        return 0;
    }
    model.groups.get(g).penalty.unwrap_or(0)
}

// The penalties of the nodes of an item.
fn penalty_of(nodes: &NodeTables<'_>, item: Item) -> i64
    ensures { result ≡ total_by (penalty_at_of nodes.now) (item_nodes item) }
{
    match item {
        Item::Visit(node) => penalty_at(nodes, node),
        Item::PickupAndDelivery(pickup, delivery) => {
            penalty_at(nodes, pickup) + penalty_at(nodes, delivery)
        }
    }
}

// Whether a price is paid for an item. It is always if the item is not of class 2, else if it is below the penalties of
// its nodes.
fn pays(nodes: &NodeTables<'_>, candidate: Candidate, price: i64) -> bool
    ensures { result ≡ (not (candidate.class == 2)
        || int_lt price (total_by (penalty_at_of nodes.now) (item_nodes candidate.item))) }
{
    candidate.class != 2 || price < penalty_of(nodes, candidate.item)
}

// Makes an offer for an item, if there is one and it pays.
fn take_if_paid(
    trial: &mut Trial<'_>,
    candidate: Candidate,
    best: Option<Priced>,
) -> Result<(), NoMemory>
    requires candidate { candidate.class ≡ class trial.old.model (item_nodes candidate.item) }
    requires ranked { IfSome best (IsRanked trial.old.model trial.old.lists) }
    requires item { IfSome best (λ best. (insertion_at best).item ≡ item_nodes candidate.item) }
    ensures model { trial.new.model ≡ trial.old.model }
    ensures lists { OnOk result (trial.new.lists
        ≡ with_offer trial.old.model trial.old.lists (option_map insertion_at best)) }
{
    match best {
        None => Ok(()),
        Some(best) => {
            if !pays(trial.nodes(), candidate, best.price) {
                return Ok(());
            }
            trial.make(best.offer)
        }
    }
}

// The offer for an item at place `r` of their order, the last one if there are fewer. The first one is found without
// writing all, if no schedules cost anything.
fn choose(
    trial: &mut Trial<'_>,
    item: Item,
    wide: bool,
    r: u32,
    ranked: &mut Vec<Priced>,
) -> Result<Option<Priced>, NoMemory>
    requires { MayGoBack trial.old.model trial.old.lists item }
    ensures ranked { IfOk result (λ best. IfSome best (IsRanked trial.old.model trial.old.lists)) }
    ensures value { IfOk result (λ best. option_map insertion_at best
        ≡ offer_at trial.old.model wide trial.old.lists (item_nodes item) r) }
    ensures trial { trial.new ≡ trial.old }
{
    if r == 0 && trial.is_timeless() {
        return cheapest(trial, wide, item);
    }
    rank_all(trial, wide, item, ranked)?;
    Ok(chosen(ranked, r))
}

// An item in its turn: put back by the offer that a word chooses, if it pays. It stays out, and draws no word, if a
// group would get too many nodes from it.
fn put_back(
    trial: &mut Trial<'_>,
    candidate: Candidate,
    wide: bool,
    words: &mut Words,
    ranked: &mut Vec<Priced>,
) -> Result<(), NoMemory>
    requires candidate { IsCandidate trial.old.model candidate }
    requires inactive { is_active trial.old.lists (first_node (item_nodes candidate.item)) ≡ false }
    ensures model { trial.new.model ≡ trial.old.model }
    ensures value { OnOk result ((trial.new.lists, words.new)
        ≡ put_back_of trial.old.model wide (trial.old.lists, words.old) (item_nodes candidate.item)) }
{
    trial.know();
    if !trial.has_room(candidate.item)? {
        return Ok(());
    }
    let r = words.zeros() / 7;
    let best = choose(trial, candidate.item, wide, r, ranked)?;
    take_if_paid(trial, candidate, best)
}

/// Puts items that are in no list back in their turns, each known by its place among those of the model. If memory runs
/// out some of them were put back.
pub(crate) fn recreate(
    trial: &mut Trial<'_>,
    candidates: &[Candidate],
    order: &[u32],
    wide: bool,
    words: &mut Words,
    ranked: &mut Vec<Priced>,
) -> Result<(), NoMemory>
    requires candidates { AreCandidates trial.old.model candidates.now }
    requires within { All (λ k. k < length candidates.now) order.now }
    requires turn { AreInTurn trial.old.model trial.old.lists (map (item_at trial.old.model) order.now) }
    ensures model { trial.new.model ≡ trial.old.model }
    ensures value { OnOk result ((trial.new.lists, words.new) ≡ recreated trial.old.model wide
        (map (item_at trial.old.model) order.now) trial.old.lists words.old) }
{
    for &k in order {
        trial.know();
        put_back(trial, candidates[k as usize], wide, words, ranked)?;
    }
    Ok(())
}
