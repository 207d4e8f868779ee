//! Routes and the changes that moves make of them, against lists that were found by hand.

ghost use Rattle.std.specs.Prelude.{◌≡◌, IfOk, length};
ghost use Rattle.vr_model.specs.tables.Tables.{visits};
ghost use Rattle.vr_model.specs.tables.WellFormed.{IsWellFormed};

use std::alloc::Global;
use std::test::Fail;
use vr_model::{Closed, Model, Move};
use vr_routes::{Change, Indices, Routes};
use vr_samples::{read_model_text, routes_of};

// Twelve visits: 2 and 4 are a pair, and so are 11 and 12.
const TEXT: &str = r#"{"format":1,"nodes":13,"matrices":[[
[0,1,1,1,1,1,1,1,1,1,1,1,1],[1,0,1,1,1,1,1,1,1,1,1,1,1],[1,1,0,1,1,1,1,1,1,1,1,1,1],[1,1,1,0,1,1,1,1,1,1,1,1,1],
[1,1,1,1,0,1,1,1,1,1,1,1,1],[1,1,1,1,1,0,1,1,1,1,1,1,1],[1,1,1,1,1,1,0,1,1,1,1,1,1],[1,1,1,1,1,1,1,0,1,1,1,1,1],
[1,1,1,1,1,1,1,1,0,1,1,1,1],[1,1,1,1,1,1,1,1,1,0,1,1,1],[1,1,1,1,1,1,1,1,1,1,0,1,1],[1,1,1,1,1,1,1,1,1,1,1,0,1],
[1,1,1,1,1,1,1,1,1,1,1,1,0]]],
"vehicles":[{"start":0,"end":0},{"start":0,"end":0}],
"pairs":[{"pickup":2,"delivery":4},{"pickup":11,"delivery":12}]}"#;

const LONG: &[u32] = &[1, 2, 3, 4, 5, 6, 7, 8];

// A move, and what it makes of a long list and of that of 9 and 10.
type Row = (&'static str, Move, &'static [u32], &'static [u32]);

#[rattlefmt::skip]
static ROWS: [Row; 15] = [
    ("six reversed", Move::TwoOpt { v: 0, a: 1, b: 6 }, &[1, 7, 6, 5, 4, 3, 2, 8], &[9, 10]),
    ("three moved ahead", Move::OrOpt { v: 0, a: 5, k: 3, t: 1 }, &[1, 6, 7, 8, 2, 3, 4, 5], &[9, 10]),
    ("two moved to the end", Move::OrOpt { v: 0, a: 0, k: 2, t: 6 }, &[3, 4, 5, 6, 7, 8, 1, 2], &[9, 10]),
    ("to another vehicle", Move::Relocate { v: 0, a: 3, w: 1, t: 1 }, &[1, 2, 3, 5, 6, 7, 8], &[9, 4, 10]),
    ("both ends exchanged", Move::Exchange { v: 0, a: 0, w: 0, b: 7 }, &[8, 2, 3, 4, 5, 6, 7, 1], &[9, 10]),
    ("exchanged between lists", Move::Exchange { v: 0, a: 7, w: 1, b: 0 }, &[1, 2, 3, 4, 5, 6, 7, 9], &[8, 10]),
    ("ends of lists exchanged", Move::Cross { v: 0, a: 6, w: 1, b: 1 }, &[9, 7, 8], &[1, 2, 3, 4, 5, 6, 10]),
    ("put at the end", Move::MakeActive { u: 12, w: 1, t: 2 }, LONG, &[9, 10, 12]),
    ("taken out", Move::MakeInactive { v: 0, a: 4 }, &[1, 2, 3, 4, 6, 7, 8], &[9, 10]),
    ("one for another", Move::SwapActive { v: 1, a: 0, u: 11 }, LONG, &[11, 10]),
    ("a pair put in", Move::PairActive { p: 1, w: 1, s: 0, t: 1 }, LONG, &[11, 9, 12, 10]),
    ("a pair taken out", Move::PairInactive { p: 0 }, &[1, 3, 5, 6, 7, 8], &[9, 10]),
    ("a pair to another vehicle", Move::RelocatePair { p: 0, w: 1, s: 1, t: 2 }, &[1, 3, 5, 6, 7, 8], &[9, 2, 10, 4]),
    ("a pair moved apart", Move::RelocatePair { p: 0, w: 0, s: 0, t: 5 }, &[2, 1, 3, 5, 6, 7, 4, 8], &[9, 10]),
    ("a pair moved together", Move::RelocatePair { p: 0, w: 0, s: 1, t: 1 }, &[1, 2, 4, 3, 5, 6, 7, 8], &[9, 10]),
];

// Whether the list of a vehicle is this one, and each of its nodes is at its place there.
fn is_list(routes: &Routes, v: u32, wanted: &[u32]) -> bool {
    if v >= routes.vehicles() || routes.list(v) != wanted {
        return false;
    }
    for (place, &node) in wanted.iter().enumerate() {
        if routes.vehicle_of(node) != Some(v) || routes.place_of(node) != Some(place as u32) {
            return false;
        }
    }
    true
}

// Whether the move of a row makes its lists, by a change that is committed.
fn makes(closed: Closed<'_>, routes: &mut Routes, change: &mut Change, row: &Row) -> bool
    requires of_model { routes.old.visits ≡ visits closed.model.now }
    ensures visits { routes.new.visits ≡ routes.old.visits }
    ensures many { length routes.new.lists ≡ length routes.old.lists }
{
    if !Change::of_into(closed.model, routes, row.1, change) {
        return false;
    }
    routes.commit(change);
    is_list(routes, 0, row.2) && is_list(routes, 1, row.3)
}

fn all_make(closed: Closed<'_>, base: &Routes, routes: &mut Routes) -> Result<(), Fail>
    requires of_model { base.now.visits ≡ visits closed.model.now }
    requires same { routes.old ≡ base.now }
{
    let mut change = Change::blank();
    for row in &ROWS {
        routes.assign(base);
        if !makes(closed, routes, &mut change, row) {
            return Err(Fail::new(row.0));
        }
    }
    Ok(())
}

fn all_make_of(alloc: Global, closed: Closed<'_>, base: &Routes) -> Result<(), Fail>
    requires of_model { base.now.visits ≡ visits closed.model.now }
{
    match base.copy(alloc) {
        Ok(mut routes) => all_make(closed, base, &mut routes),
        Err(_) => Err("memory".into()),
    }
}

fn all_make_in(alloc: Global, closed: Closed<'_>) -> Result<(), Fail> {
    match routes_of(alloc, closed.model, &[LONG, &[9, 10]]) {
        Ok(Some(base)) => all_make_of(alloc, closed, &base),
        _ => Err("no routes".into()),
    }
}

fn model(alloc: Global) -> Result<Model, Fail>
    ensures { IfOk result IsWellFormed }
{
    Ok(read_model_text(alloc, TEXT).ok_or("no model")?)
}

#[test]
fn moves_make_lists(rt: HostRuntime) -> Result<(), Fail> {
    let model = model(rt.alloc())?;
    all_make_in(rt.alloc(), Closed { model: &model })
}

fn are_numbered(alloc: Global, closed: Closed<'_>) -> bool {
    Indices::new(alloc, closed.model).is_ok()
}

fn begin_empty(alloc: Global, closed: Closed<'_>) -> bool {
    Routes::empty(alloc, closed.model).is_ok()
}

#[test]
fn visits_are_numbered_and_routes_begin_empty(rt: HostRuntime) -> Result<(), Fail> {
    let model = model(rt.alloc())?;
    assert!(rt; are_numbered(rt.alloc(), Closed { model: &model }));
    assert!(rt; begin_empty(rt.alloc(), Closed { model: &model }));
    Ok(())
}
