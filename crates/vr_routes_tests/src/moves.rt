//! The moves of each neighbourhood of small lists, in order.

ghost use Rattle.std.specs.Iterator.{IsFinite};

use std::alloc::Global;
use std::test::Fail;
use vr_model::{Closed, Move, Neighbourhood};
use vr_moves_active::{make_active, make_inactive, swap_active};
use vr_moves_cross::{cross_chains, exchange, relocate};
use vr_moves_pair::{pair_active, pair_inactive, relocate_pair};
use vr_moves_route::{or_opt, two_opt};
use vr_routes::Routes;
use vr_samples::{read_model_text, routes_of};

// Two visits and one vehicle.
const TWO: &str =
    r#"{"format":1,"nodes":3,"matrices":[[[0,1,1],[1,0,1],[1,1,0]]],"vehicles":[{"start":0,"end":0}]}"#;

// Three visits and one vehicle.
const THREE: &str = r#"{"format":1,"nodes":4,"matrices":[[[0,1,1,1],[1,0,1,1],[1,1,0,1],[1,1,1,0]]],
"vehicles":[{"start":0,"end":0}]}"#;

// The same, with a pair of visits 1 and 2.
const PAIR: &str = r#"{"format":1,"nodes":4,"matrices":[[[0,1,1,1],[1,0,1,1],[1,1,0,1],[1,1,1,0]]],
"vehicles":[{"start":0,"end":0}],"pairs":[{"pickup":1,"delivery":2}]}"#;

// Three visits, and two and three vehicles.
const TWO_VANS: &str =
    r#"{"format":1,"nodes":4,"matrices":[[[0,1,1,1],[1,0,1,1],[1,1,0,1],[1,1,1,0]]],
"vehicles":[{"start":0,"end":0},{"start":0,"end":0}]}"#;

const THREE_VANS: &str =
    r#"{"format":1,"nodes":4,"matrices":[[[0,1,1,1],[1,0,1,1],[1,1,0,1],[1,1,1,0]]],
"vehicles":[{"start":0,"end":0},{"start":0,"end":0},{"start":0,"end":0}]}"#;

// The number of the kind of a move, and its numbers in the order of its fields, with 0s after them.
type Numbers = (u32, [u32; 4]);

fn numbers_of(mv: Move) -> Numbers {
    match mv {
        Move::TwoOpt { v, a, b } => (0, [v, a, b, 0]),
        Move::OrOpt { v, a, k, t } => (1, [v, a, k, t]),
        Move::Relocate { v, a, w, t } => (2, [v, a, w, t]),
        Move::Exchange { v, a, w, b } => (3, [v, a, w, b]),
        Move::Cross { v, a, w, b } => (4, [v, a, w, b]),
        Move::RelocatePair { p, w, s, t } => (5, [p, w, s, t]),
        Move::PairActive { p, w, s, t } => (6, [p, w, s, t]),
        Move::PairInactive { p } => (7, [p, 0, 0, 0]),
        Move::MakeActive { u, w, t } => (8, [u, w, t, 0]),
        Move::MakeInactive { v, a } => (9, [v, a, 0, 0]),
        Move::SwapActive { v, a, u } => (10, [v, a, u, 0]),
    }
}

// Whether an iterator lists moves of a kind with these numbers, and no more.
fn lists<I: Iterator<Item = Move>>(moves: I, kind: u32, wanted: &[[u32; 4]]) -> bool
    requires { I.can_next moves × IsFinite (I.remaining moves) }
{
    let mut n = 0;
    for mv in moves {
        if n >= wanted.len() || numbers_of(mv) != (kind, wanted[n]) {
            return false;
        }
        n += 1;
    }
    n == wanted.len()
}

// A neighbourhood and the numbers of its moves.
type Row = (&'static str, Neighbourhood, &'static [[u32; 4]]);

// Whether the moves of a neighbourhood have the numbers of the row.
fn moves_are(closed: Closed<'_>, routes: &Routes, row: &Row) -> bool {
    match row.1 {
        Neighbourhood::TwoOpt => lists(two_opt(routes), 0, row.2),
        Neighbourhood::OrOpt => lists(or_opt(routes), 1, row.2),
        Neighbourhood::Relocate => lists(relocate(routes), 2, row.2),
        Neighbourhood::Exchange => lists(exchange(routes), 3, row.2),
        Neighbourhood::Cross => lists(cross_chains(routes), 4, row.2),
        Neighbourhood::RelocatePair => lists(relocate_pair(closed.model, routes), 5, row.2),
        Neighbourhood::PairActive => lists(pair_active(closed.model, routes), 6, row.2),
        Neighbourhood::PairInactive => lists(pair_inactive(closed.model, routes), 7, row.2),
        Neighbourhood::MakeActive => lists(make_active(routes), 8, row.2),
        Neighbourhood::MakeInactive => lists(make_inactive(routes), 9, row.2),
        Neighbourhood::SwapActive => lists(swap_active(routes), 10, row.2),
    }
}

// A model, lists of its vehicles, and moves of them.
struct Table {
    text: &'static str,
    lists: &'static [&'static [u32]],
    rows: &'static [Row],
}

#[rattlefmt::skip]
static TABLES: [Table; 8] = [
    Table { text: TWO, lists: &[&[1, 2]], rows: &[
        ("two are reversed", Neighbourhood::TwoOpt, &[[0, 0, 1, 0]]),
        ("chains of two", Neighbourhood::OrOpt, &[[0, 0, 1, 1], [0, 1, 1, 0]]),
    ] },
    Table { text: THREE, lists: &[&[1, 2, 3]], rows: &[
        ("chains of three", Neighbourhood::OrOpt, &[
            [0, 0, 1, 1], [0, 0, 1, 2], [0, 0, 2, 1], [0, 1, 1, 0], [0, 1, 1, 2], [0, 1, 2, 0],
            [0, 2, 1, 0], [0, 2, 1, 1],
        ]),
    ] },
    Table { text: THREE_VANS, lists: &[&[1, 2], &[3], &[]], rows: &[
        ("visits of three lists", Neighbourhood::Relocate, &[
            [0, 0, 1, 0], [0, 0, 1, 1], [0, 0, 2, 0], [0, 1, 1, 0], [0, 1, 1, 1], [0, 1, 2, 0],
            [1, 0, 0, 0], [1, 0, 0, 1], [1, 0, 0, 2], [1, 0, 2, 0],
        ]),
    ] },
    Table { text: TWO_VANS, lists: &[&[1, 2], &[3]], rows: &[
        ("two visits exchanged", Neighbourhood::Exchange, &[[0, 0, 0, 1], [0, 0, 1, 0], [0, 1, 1, 0]]),
        ("ends of lists exchanged", Neighbourhood::Cross, &[
            [0, 0, 1, 1], [0, 1, 1, 0], [0, 1, 1, 1], [0, 2, 1, 0], [0, 2, 1, 1],
        ]),
    ] },
    Table { text: THREE, lists: &[&[2]], rows: &[
        ("visits put in", Neighbourhood::MakeActive, &[[1, 0, 0, 0], [1, 0, 1, 0], [3, 0, 0, 0], [3, 0, 1, 0]]),
        ("a visit taken out", Neighbourhood::MakeInactive, &[[0, 0, 0, 0]]),
        ("one for another", Neighbourhood::SwapActive, &[[0, 0, 1, 0], [0, 0, 3, 0]]),
    ] },
    Table { text: TWO, lists: &[&[]], rows: &[
        ("visits put into an empty list", Neighbourhood::MakeActive, &[[1, 0, 0, 0], [2, 0, 0, 0]]),
        ("none to take out", Neighbourhood::MakeInactive, &[]),
        ("none to exchange", Neighbourhood::SwapActive, &[]),
    ] },
    Table { text: PAIR, lists: &[&[1, 2, 3]], rows: &[
        ("places of a pair", Neighbourhood::RelocatePair, &[[0, 0, 0, 1], [0, 0, 1, 1]]),
        ("no pair to put in", Neighbourhood::PairActive, &[]),
        ("a pair taken out", Neighbourhood::PairInactive, &[[0, 0, 0, 0]]),
    ] },
    Table { text: PAIR, lists: &[&[3]], rows: &[
        ("no pair to move", Neighbourhood::RelocatePair, &[]),
        ("a pair put in", Neighbourhood::PairActive, &[[0, 0, 0, 0], [0, 0, 0, 1], [0, 0, 1, 1]]),
        ("no pair to take out", Neighbourhood::PairInactive, &[]),
    ] },
];

fn all_are(closed: Closed<'_>, routes: &Routes, rows: &[Row]) -> Result<(), Fail> {
    for row in rows {
        if !moves_are(closed, routes, row) {
            return Err(Fail::new(row.0));
        }
    }
    Ok(())
}

fn table_holds_of(alloc: Global, closed: Closed<'_>, table: &Table) -> Result<(), Fail> {
    match routes_of(alloc, closed.model, table.lists) {
        Ok(Some(routes)) => all_are(closed, &routes, table.rows),
        _ => Err("no routes".into()),
    }
}

fn table_holds(alloc: Global, table: &Table) -> Result<(), Fail> {
    match read_model_text(alloc, table.text) {
        Some(model) => table_holds_of(alloc, Closed { model: &model }, table),
        None => Err("no model".into()),
    }
}

#[test]
fn moves_come_in_order(rt: HostRuntime) -> Result<(), Fail> {
    for table in &TABLES {
        table_holds(rt.alloc(), table)?;
    }
    Ok(())
}
