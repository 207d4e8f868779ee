//! The best places of an item in one list.

ghost use Rattle.std.specs.Prelude.{◌≡◌, suc, ◌+◌, ◌≤◌, ◌&&◌, fold, insert, map, IfOk, IsTrue, length};
ghost use Rattle.std.specs.List.{list_all};
ghost use Rattle.vr_model.specs.moves.Moves.{gaps};
ghost use Rattle.vr_model.specs.routes.Rules.{allows_vehicle, is_route_open};
ghost use Rattle.vr_model.specs.tables.Numbers.{each, from_to};
ghost use Rattle.vr_rules.specs.Placing.{improves as improves_by, item_nodes};
ghost use Rattle.vr_first_insert.specs.Probes.{AreReachedAt};
ghost use Rattle.vr_first_insert.specs.Placings.{key_of, placed, IsLeastIncrease};
ghost use Rattle.vr_first_insert.specs.declared.choice.Placing.TheVariants.{One};
ghost use Rattle.vr_first_insert.specs.VehicleLists.{best_of_candidate, pair_before, visit_before, weigh_in};
ghost use Rattle.vr_first_insert.specs.VehicleLists.{IsReadyList, IsReadyPair, MayTestPair, MayTestVisit};
ghost use Rattle.vr_first_insert.specs.KeptRows.{list_model};

use crate::bound::{least_apart, least_behind, least_further, least_place, write_ahead};
use crate::choice::{InsertionChoice, Placing, improves, may_improve};
use crate::increase::{pair_increase, visit_increase};
use crate::place::{move_on, write_placed};
use crate::probes::Probes;
use crate::scratch::InsertScratch;
use crate::trying::{Trying, may_serve, may_visit};
use crate::vehicle_list::{CandidateIn, PairIn, VisitIn};
use std::alloc::Global;
use vr_model::{NoMemory, Seq};
use vr_rules::{Item, allows_item};

// A visit before place `t`.
fn visit_at(visit: &VisitIn<'_, '_, '_>, t: usize) -> InsertionChoice
    requires { t ≤ length visit.now.list.nodes.now }
    ensures { result ≡ visit_before visit.now t }
{
    InsertionChoice {
        placing: Placing::One(visit.node, t as u32),
        class: visit.class,
        vehicle: visit.list.vehicle,
        increase: visit_increase(&visit.list, visit.node, t),
    }
}

// The better of the best so far and a visit before place `t`, as `longer` has it. The visit is tested only if it
// improves.
fn weigh_visit(
    trying: &mut Trying,
    visit: &VisitIn<'_, '_, '_>,
    t: usize,
    best: Option<InsertionChoice>,
) -> Result<Option<InsertionChoice>, NoMemory>
    requires { MayTestVisit visit.now t trying.old.longer }
    ensures best { IfOk result (λ chosen. chosen ≡ weigh_in visit.now.list best (visit_before visit.now t)) }
    ensures longer { trying.new.longer ≡ trying.old.longer }
{
    let next = visit_at(visit, t);
    if !improves(best, next) {
        return Ok(best);
    }
    if may_visit(trying, visit, t)? {
        Ok(Some(next))
    } else {
        Ok(best)
    }
}

// Whether a visit before place `t` is better than the best so far, and its vehicle may drive the list with it.
fn is_visit_taken(
    trying: &mut Trying,
    visit: &VisitIn<'_, '_, '_>,
    t: usize,
    best: Option<InsertionChoice>,
) -> Result<bool, NoMemory>
    requires { MayTestVisit visit.now t trying.old.longer }
    ensures { IfOk result (λ taken. taken ≡ (improves_by key_of best (visit_before visit.now t)
        && is_route_open (list_model visit.now.list) visit.now.list.vehicle
        (placed visit.now.list.nodes.now (One visit.now.node t)))) }
{
    if !improves(best, visit_at(visit, t)) {
        return Ok(false);
    }
    may_visit(trying, visit, t)
}

// The better of the best so far and a visit before each place of a list. The first place at which it adds least is
// tried first: if that is taken, no other is looked at.
fn best_visit(
    scratch: &mut InsertScratch,
    visit: &VisitIn<'_, '_, '_>,
    best: Option<InsertionChoice>,
) -> Result<Option<InsertionChoice>, NoMemory>
    requires { IsReadyList visit.now.list visit.now.list_rows.now }
    ensures { IfOk result (λ chosen. chosen ≡ fold (weigh_in visit.now.list) best
        (map (visit_before visit.now) (gaps visit.now.list.nodes.now))) }
{
    let t = least_place(&visit.list, visit.node);
    let trying = &mut scratch.trying;
    write_placed(
        visit.list.nodes,
        Placing::One(visit.node, t as u32),
        &mut trying.longer,
    )?;
    if is_visit_taken(trying, visit, t, best)? {
        return Ok(Some(visit_at(visit, t)));
    }
    best_of_places(scratch, visit, best)
}

// The same, by one place after another.
fn best_of_places(
    scratch: &mut InsertScratch,
    visit: &VisitIn<'_, '_, '_>,
    best: Option<InsertionChoice>,
) -> Result<Option<InsertionChoice>, NoMemory>
    requires { IsReadyList visit.now.list visit.now.list_rows.now }
    ensures { IfOk result (λ chosen. chosen ≡ fold (weigh_in visit.now.list) best
        (map (visit_before visit.now) (gaps visit.now.list.nodes.now))) }
{
    let trying = &mut scratch.trying;
    let list = visit.list.nodes;
    write_placed(list, Placing::One(visit.node, 0), &mut trying.longer)?;
    let first = weigh_visit(trying, visit, 0, best)?;
    let mut best = first;
    for t in 0..list.len() {
        move_on(&mut trying.longer, t);
        best = weigh_visit(trying, visit, t + 1, best)?;
    }
    Ok(best)
}

// A pickup before place `s` and its delivery before place `t`.
fn pair_at(pair: &PairIn<'_, '_, '_>, s: usize, t: usize) -> InsertionChoice
    requires order { s ≤ t }
    requires within { t ≤ length pair.now.list.nodes.now }
    ensures { result ≡ pair_before pair.now s t }
{
    InsertionChoice {
        placing: Placing::Two(pair.pickup, pair.delivery, s as u32, t as u32),
        class: pair.class,
        vehicle: pair.list.vehicle,
        increase: pair_increase(&pair.list, pair.pickup, pair.delivery, s, t),
    }
}

// The better of the best so far and a pair before two places, as `longer` has it. The pair is tested only if it
// improves, by what the list with the pickup reaches at the node before the delivery.
fn weigh_pair(
    trying: &mut Trying,
    probes: &Probes,
    pair: &PairIn<'_, '_, '_>,
    s: usize,
    t: usize,
    best: Option<InsertionChoice>,
) -> Result<Option<InsertionChoice>, NoMemory>
    requires { MayTestPair pair.now s t probes.now trying.old.longer }
    ensures best { IfOk result (λ chosen. chosen ≡ weigh_in pair.now.list best (pair_before pair.now s t)) }
    ensures longer { trying.new.longer ≡ trying.old.longer }
{
    let next = pair_at(pair, s, t);
    if !improves(best, next) {
        return Ok(best);
    }
    if may_serve(trying, probes, pair, t)? {
        Ok(Some(next))
    } else {
        Ok(best)
    }
}

// A pickup before place `s`, and its delivery before some later place.
#[derive(Clone, Copy)]
struct Begun<'l, 'm, 'k, 's> {
    pair: PairIn<'l, 'm, 'k>,
    s: usize,
    // the list with the pickup
    half: &'s [u32],
    // the least that the delivery adds before the last places of the list
    ahead: &'s Seq<i64>,
    ghost within: { s ≤ length pair.list.nodes.now },
    ghost picked_up: { half.now ≡ insert pair.list.nodes.now s pair.pickup },
}

// The better of the best so far and a pickup before a place with its delivery before each later place. What the list
// with the pickup reaches at the stop after the pickup is known. That moves on with the delivery: when the delivery
// goes before place `t`, it is at stop `t + 1` of that list.
//
// Once nothing is reached, no place further on is allowed. No place is looked at if none from there on can be better.
fn best_further(
    trying: &mut Trying,
    probes: &mut Probes,
    begun: &Begun<'_, '_, '_, '_>,
    best: Option<InsertionChoice>,
) -> Result<Option<InsertionChoice>, NoMemory>
    requires ready { IsReadyPair begun.now.pair begun.now.ahead.now }
    requires here { AreReachedAt (list_model begun.now.pair.list) begun.now.pair.list.vehicle begun.now.half.now
        (begun.now.s + 2) probes.old }
    requires longer { trying.old.longer ≡ insert begun.now.half.now (begun.now.s + 1) begun.now.pair.delivery }
    ensures { IfOk result (λ chosen. chosen ≡ fold (weigh_in begun.now.pair.list) best
        (map (pair_before begun.now.pair begun.now.s)
        (from_to (begun.now.s + 1) (suc (length begun.now.pair.list.nodes.now))))) }
{
    let pair = &begun.pair;
    let list = &pair.list;
    let s = begun.s;
    let alone = visit_increase(list, pair.pickup, s);
    let mut best = best;
    for t in s + 1..list.nodes.len() + 1 {
        let least = *begun.ahead.get(list.nodes.len() - t);
        if !may_improve(best, pair.class, least_apart(alone, least)) {
            return Ok(best);
        }
        if probes.is_stuck(list.lookups.closed) {
            return Ok(best);
        }
        move_on(&mut trying.longer, t);
        best = weigh_pair(trying, probes, pair, s, t, best)?;
        probes.go_on(
            list.lookups,
            list.vehicle,
            begun.half,
            t + 1,
            &mut trying.walk,
        )?;
    }
    Ok(best)
}

// The better of the best so far and a pickup before a place with its delivery before each place from there on. Once
// nothing is reached, no place further on is allowed. After the first place none is looked at if none can be better;
// `least` is what the delivery adds at least, before any place.
fn best_behind(
    alloc: Global,
    trying: &mut Trying,
    probes: &mut Probes,
    begun: &Begun<'_, '_, '_, '_>,
    least: i64,
    best: Option<InsertionChoice>,
) -> Result<Option<InsertionChoice>, NoMemory>
    requires ready { IsReadyPair begun.now.pair begun.now.ahead.now }
    requires least { IsLeastIncrease (list_model begun.now.pair.list) begun.now.pair.list.vehicle
        begun.now.pair.list.nodes.now begun.now.pair.delivery least }
    ensures { IfOk result (λ chosen. chosen ≡ fold (weigh_in begun.now.pair.list) best
        (map (pair_before begun.now.pair begun.now.s)
        (from_to begun.now.s (suc (length begun.now.pair.list.nodes.now))))) }
{
    let pair = &begun.pair;
    let list = &pair.list;
    let s = begun.s;
    probes.leave(alloc, pair.list_rows, list, begun.half, s, &mut trying.walk)?;
    if probes.is_stuck(list.lookups.closed) {
        return Ok(best);
    }
    let placing = Placing::Two(pair.pickup, pair.delivery, s as u32, s as u32);
    write_placed(list.nodes, placing, &mut trying.longer)?;
    let near = weigh_pair(trying, probes, pair, s, s, best)?;
    if !may_improve(near, pair.class, least_further(list, pair.pickup, s, least)) {
        return Ok(near);
    }
    probes.go_on(
        list.lookups,
        list.vehicle,
        begun.half,
        s + 1,
        &mut trying.walk,
    )?;
    best_further(trying, probes, begun, near)
}

// The better of the best so far and a pickup before place `s` with its delivery before each place from there on. The
// least that the delivery adds is in the scratch. No place is looked at if none can be better.
fn best_delivery(
    scratch: &mut InsertScratch,
    pair: &PairIn<'_, '_, '_>,
    s: usize,
    best: Option<InsertionChoice>,
) -> Result<Option<InsertionChoice>, NoMemory>
    requires ready { IsReadyPair pair.now scratch.old.ahead }
    requires within { s ≤ length pair.now.list.nodes.now }
    ensures best { IfOk result (λ chosen. chosen ≡ fold (weigh_in pair.now.list) best
        (map (pair_before pair.now s)
        (from_to s (suc (length pair.now.list.nodes.now))))) }
    ensures ahead { scratch.new.ahead ≡ scratch.old.ahead }
{
    let list = &pair.list;
    let least = *scratch.ahead.get(list.nodes.len());
    if !may_improve(
        best,
        pair.class,
        least_behind(list, pair.pickup, pair.delivery, s, least),
    ) {
        return Ok(best);
    }
    write_placed(
        list.nodes,
        Placing::One(pair.pickup, s as u32),
        &mut scratch.half,
    )?;
    let begun = Begun {
        pair: *pair,
        s,
        half: scratch.half.as_slice(),
        ahead: &scratch.ahead,
    };
    let trying = &mut scratch.trying;
    let probes = &mut scratch.probes;
    best_behind(scratch.alloc, trying, probes, &begun, least, best)
}

// The better of the best so far and a pair before each two places of a list.
fn best_pair(
    scratch: &mut InsertScratch,
    pair: &PairIn<'_, '_, '_>,
    best: Option<InsertionChoice>,
) -> Result<Option<InsertionChoice>, NoMemory>
    requires { IsReadyList pair.now.list pair.now.list_rows.now }
    ensures { IfOk result (λ chosen. chosen ≡ fold (weigh_in pair.now.list) best
        (each (gaps pair.now.list.nodes.now) (λ s. map (pair_before pair.now s)
        (from_to s (suc (length pair.now.list.nodes.now)))))) }
{
    write_ahead(&pair.list, pair.delivery, &mut scratch.ahead)?;
    let mut best = best;
    for s in 0..pair.list.nodes.len() + 1 {
        best = best_delivery(scratch, pair, s, best)?;
    }
    Ok(best)
}

// The better of the best so far and an item in a list, whose vehicle may visit its nodes.
fn best_where_allowed(
    scratch: &mut InsertScratch,
    of: &CandidateIn<'_, '_, '_>,
    best: Option<InsertionChoice>,
) -> Result<Option<InsertionChoice>, NoMemory>
    requires ready { IsReadyList of.now.list of.now.list_rows.now }
    requires allowed { IsTrue (list_all (allows_vehicle (list_model of.now.list) of.now.list.vehicle)
        (item_nodes of.now.candidate.item)) }
    ensures { IfOk result (λ chosen. chosen ≡ best_of_candidate of.now best) }
{
    let list = of.list;
    let list_rows = of.list_rows;
    let candidate = of.candidate;
    let class = candidate.class;
    let best = match candidate.item {
        Item::Visit(node) => {
            let visit = VisitIn {
                list,
                list_rows,
                class,
                node,
            };
            best_visit(scratch, &visit, best)?
        }
        Item::PickupAndDelivery(pickup, delivery) => {
            let pair = PairIn {
                list,
                list_rows,
                class,
                pickup,
                delivery,
            };
            best_pair(scratch, &pair, best)?
        }
    };
    Ok(best)
}

/// The better of the best so far and the best insertion of an item into a list. The vehicle is asked once whether it
/// may visit the nodes of the item.
pub(crate) fn best_in_list(
    scratch: &mut InsertScratch,
    of: &CandidateIn<'_, '_, '_>,
    best: Option<InsertionChoice>,
) -> Result<Option<InsertionChoice>, NoMemory>
    requires { IsReadyList of.now.list of.now.list_rows.now }
    ensures { IfOk result (λ chosen. chosen ≡ best_of_candidate of.now best) }
{
    if !allows_item(of.list.lookups.nodes(), of.list.vehicle, of.candidate.item) {
        return Ok(best);
    }
    best_where_allowed(scratch, of, best)
}
