//! What a search by ruin and recreate draws, against strings and orders that were found by hand from the words of
//! seed 0.

ghost use Rattle.std.specs.Prelude.{◌≡◌, ◌<◌, ◌≤◌, IfOk, length};
ghost use Rattle.vr_model.specs.tables.WellFormed.{IsWellFormed};

use std::alloc::Global;
use std::test::Fail;
use vr_lists::NodeTables;
use vr_model::{Closed, Model};
use vr_routes::{Routes, Row};
use vr_samples::{read_model_text, routes_of};
use vr_strings::{
    ItemKeys, Rings, Ruin, Words, draw_step_size, draw_string, draw_turns, write_left,
};

// Seven visits on a line after the depot: 3 and 5 are a pair, 2 is optional, and of 4 and 6 one is wanted.
const TEXT: &str = r#"{"format":1,"nodes":8,"matrices":[[
[0,1,2,3,4,5,6,7],[1,0,1,2,3,4,5,6],[2,1,0,1,2,3,4,5],[3,2,1,0,1,2,3,4],
[4,3,2,1,0,1,2,3],[5,4,3,2,1,0,1,2],[6,5,4,3,2,1,0,1],[7,6,5,4,3,2,1,0]]],
"vehicles":[{"start":0,"end":0},{"start":0,"end":0}],
"groups":[{"nodes":[2],"penalty":5},{"nodes":[4,6]}],
"pairs":[{"pickup":3,"delivery":5}]}"#;

#[rattlefmt::skip]
static WORDS: [u32; 10] = [
    298703107, 4236525527, 336081875, 1056616254, 1060453275,
    1616833669, 501767310, 2864049166, 56572352, 2362354238,
];

static ZEROS: [u32; 10] = [3, 0, 3, 2, 2, 1, 3, 0, 6, 0];

// Whether these words come next. A word modulo the greatest one is the word.
fn are_next(words: &mut Words, wanted: &[u32]) -> bool {
    for &word in wanted {
        if words.draw(u32::MAX) != word {
            return false;
        }
    }
    true
}

// Whether the next words have as many leading zeros.
fn have_zeros(words: &mut Words, wanted: &[u32]) -> bool {
    for &zeros in wanted {
        if words.zeros() != zeros {
            return false;
        }
    }
    true
}

// The words of seed 0 after the first ones.
fn words_from(first: u32) -> Words {
    let mut words = Words::of_seed(0);
    for _k in 0..first {
        let _word = words.draw(1);
    }
    words
}

#[test]
fn words_are_those_of_the_seed(rt: HostRuntime) {
    assert!(rt; are_next(&mut Words::of_seed(0), &WORDS));
    assert!(rt; have_zeros(&mut Words::of_seed(0), &ZEROS));
}

// A string. First come the word with which its draws begin, the longest string, the length of the route and the place.
// Then its first place, its width, the place that stays, and the word that comes after it.
type StringRow = (&'static str, u32, [u32; 3], u32, u32, Option<u32>, u32);

#[rattlefmt::skip]
static STRINGS: [StringRow; 6] = [
    ("two at the end", 0, [3, 6, 4], 4, 2, None, 1056616254),
    ("one stays of four", 2, [3, 6, 4], 2, 4, Some(4), 501767310),
    ("one draws no coin", 0, [1, 6, 0], 0, 1, None, 336081875),
    ("all of two draw no coin", 0, [10, 2, 1], 0, 2, None, 336081875),
    ("three in a row", 1, [3, 6, 4], 2, 3, None, 1060453275),
    ("one alone", 3, [3, 6, 4], 4, 1, None, 1616833669),
];

fn is_drawn(row: &StringRow) -> bool {
    let mut words = words_from(row.1);
    let [longest, n, p] = row.2;
    if longest == 0 || p >= n || n > 1000 {
        return false;
    }
    let string = draw_string(longest, n, p, &mut words);
    string.first == row.3
        && string.width == row.4
        && string.stays == row.5
        && are_next(&mut words, &[row.6])
}

#[test]
fn strings_are_drawn(rt: HostRuntime) -> Result<(), Fail> {
    for row in &STRINGS {
        if !is_drawn(row) {
            return Err(Fail::new(row.0));
        }
    }
    Ok(())
}

fn model(alloc: Global) -> Result<Model, Fail>
    ensures { IfOk result IsWellFormed }
{
    Ok(read_model_text(alloc, TEXT).ok_or("no model")?)
}

// What is left of the route of 1 to 6 without a string. It has the word with which its draws begin, the longest string
// and the place.
type LeftRow = (&'static str, u32, [u32; 2], &'static [u32]);

#[rattlefmt::skip]
static LEFT: [LeftRow; 4] = [
    ("one visit", 0, [1, 0], &[2, 3, 4, 5, 6]),
    ("a partner goes too", 0, [3, 4], &[1, 2, 4]),
    ("a partner that stays goes", 2, [3, 4], &[1, 2]),
    ("both of a pair", 1, [3, 4], &[1, 2, 6]),
];

fn is_left(nodes: &NodeTables<'_>, routes: &Routes, row: &LeftRow) -> bool
    requires { 0 < length routes.now.lists }
{
    let mut words = words_from(row.1);
    let [longest, p] = row.2;
    let n = routes.len(0);
    if longest == 0 || p >= n {
        return false;
    }
    let string = draw_string(longest, n, p, &mut words);
    let mut left = Row::new();
    write_left(nodes, routes, 0, string, &mut left);
    left.as_slice() == row.3
}

fn all_left(nodes: &NodeTables<'_>, routes: &Routes) -> Result<(), Fail> {
    if routes.vehicles() == 0 {
        return Err("no vehicle".into());
    }
    for row in &LEFT {
        if !is_left(nodes, routes, row) {
            return Err(Fail::new(row.0));
        }
    }
    Ok(())
}

fn all_left_of(alloc: Global, nodes: &NodeTables<'_>, closed: Closed<'_>) -> Result<(), Fail> {
    match routes_of(alloc, closed.model, &[&[1, 2, 3, 4, 5, 6], &[]]) {
        Ok(Some(routes)) => all_left(nodes, &routes),
        _ => Err("no routes".into()),
    }
}

fn all_left_in(alloc: Global, closed: Closed<'_>) -> Result<(), Fail> {
    match NodeTables::open(alloc, closed.model) {
        Ok(nodes) => all_left_of(alloc, &nodes, closed),
        Err(_) => Err("memory".into()),
    }
}

#[test]
fn strings_go_with_partners(rt: HostRuntime) -> Result<(), Fail> {
    let model = model(rt.alloc())?;
    all_left_in(rt.alloc(), Closed { model: &model })
}

// The order in which items go back to empty routes, as places among 1, 2, 3 with 5, 4, 6 and 7.
type TurnRow = (&'static str, u32, &'static [u32]);

#[rattlefmt::skip]
static TURNS: [TurnRow; 2] = [
    ("the farthest first", 0, &[5, 2, 0, 4, 3, 1]),
    ("as they were shuffled", 1, &[2, 0, 5, 3, 4, 1]),
];

// Whether these turns are drawn from the words after the first ones.
fn are_turns(
    items: &ItemKeys<'_>,
    routes: &Routes,
    order: &mut Vec<u32>,
    first: u32,
    wanted: &[u32],
) -> bool {
    let mut words = words_from(first);
    draw_turns(items, routes, &mut words, order).is_ok() && order.as_slice() == wanted
}

fn all_turns(alloc: Global, items: &ItemKeys<'_>, routes: &Routes) -> Result<(), Fail> {
    let mut order = Vec::new(alloc);
    for row in &TURNS {
        if !are_turns(items, routes, &mut order, row.1, row.2) {
            return Err(Fail::new(row.0));
        }
    }
    Ok(())
}

fn all_turns_of(alloc: Global, items: &ItemKeys<'_>, closed: Closed<'_>) -> Result<(), Fail> {
    match Routes::empty(alloc, closed.model) {
        Ok(routes) => all_turns(alloc, items, &routes),
        Err(_) => Err("memory".into()),
    }
}

fn all_turns_by(alloc: Global, nodes: &NodeTables<'_>, closed: Closed<'_>) -> Result<(), Fail> {
    match ItemKeys::open(alloc, nodes) {
        Ok(items) => all_turns_of(alloc, &items, closed),
        Err(_) => Err("memory".into()),
    }
}

fn all_turns_in(alloc: Global, closed: Closed<'_>) -> Result<(), Fail> {
    match NodeTables::open(alloc, closed.model) {
        Ok(nodes) => all_turns_by(alloc, &nodes, closed),
        Err(_) => Err("memory".into()),
    }
}

#[test]
fn items_take_turns(rt: HostRuntime) -> Result<(), Fail> {
    let model = model(rt.alloc())?;
    all_turns_in(rt.alloc(), Closed { model: &model })
}

const RUIN: Ruin = Ruin {
    removed: 10,
    string: 10,
    heat: 0,
};

// The visits by their nearness to visit 4, of two as near the lesser first.
const RING: &[u32] = &[4, 3, 5, 2, 6, 1, 7];

// Whether a step of routes begins at visit 4, and this is its ring.
fn is_ring(alloc: Global, rings: &mut Rings<'_>, routes: &Routes) -> bool {
    if rings.visits().is_empty() {
        return false;
    }
    let size = draw_step_size(RUIN, rings.visits(), routes, &mut Words::of_seed(0));
    rings.make(alloc, size.centre).is_ok() && rings.ring(4) == RING
}

fn is_ring_of(alloc: Global, closed: Closed<'_>, routes: &Routes) -> bool {
    match Rings::open(alloc, closed) {
        Ok(mut rings) => is_ring(alloc, &mut rings, routes),
        Err(_) => false,
    }
}

fn is_ring_in(alloc: Global, closed: Closed<'_>) -> bool {
    match Routes::empty(alloc, closed.model) {
        Ok(routes) => is_ring_of(alloc, closed, &routes),
        Err(_) => false,
    }
}

#[test]
fn rings_go_by_nearness(rt: HostRuntime) -> Result<(), Fail> {
    let model = model(rt.alloc())?;
    assert!(rt; is_ring_in(rt.alloc(), Closed { model: &model }));
    Ok(())
}

// How much a step takes out of routes with six visits in one list, and of empty routes.
fn is_size(routes: &Routes, longest: u32, count: u32) -> bool {
    let size = draw_step_size(RUIN, &[1, 2, 3, 4, 5, 6, 7], routes, &mut Words::of_seed(0));
    size.centre == 4 && size.longest == longest && size.count == count
}

fn is_size_of_used(alloc: Global, closed: Closed<'_>) -> bool {
    match routes_of(alloc, closed.model, &[&[1, 2, 3, 4, 5, 6], &[]]) {
        Ok(Some(routes)) => is_size(&routes, 6, 3),
        _ => false,
    }
}

fn is_size_of_empty(alloc: Global, closed: Closed<'_>) -> bool {
    match Routes::empty(alloc, closed.model) {
        Ok(routes) => is_size(&routes, 1, 15),
        Err(_) => false,
    }
}

#[test]
fn steps_have_their_size(rt: HostRuntime) -> Result<(), Fail> {
    let model = model(rt.alloc())?;
    assert!(rt; is_size_of_used(rt.alloc(), Closed { model: &model }));
    assert!(rt; is_size_of_empty(rt.alloc(), Closed { model: &model }));
    Ok(())
}
