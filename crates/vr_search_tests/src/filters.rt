//! Filters that follow moves: a move is made if the filter lets it pass.

ghost use Rattle.std.specs.Prelude.{◌≡◌, ◌<◌, IsTrue, OnOk, length};
ghost use Rattle.vr_model.specs.routes.Rules.{is_valid};
ghost use Rattle.vr_model.specs.tables.Tables.{visits};

use crate::models::{BREAKS, GAP, LIFO, LOAD, OPTIONAL, PAIR, THREE, TWENTY, WINDOWS};
use crate::questions::{Asks, Row, assert_rows};
use std::alloc::Global;
use std::marker::Brand;
use std::sync::ledger::{Blank, Ledger};
use vr_filter::{Both, Each, PathFilter};
use vr_model::{Closed, Move, NoMemory, Steps};
use vr_pathfilters::{DimensionFilter, GroupFilter, PairFilter, VehicleFilter};
use vr_routes::{Change, Routes};

/// Which filter is asked.
#[derive(Clone, Copy)]
pub(crate) enum Filter {
    Groups,
    Vehicles,
    Pairs,
    /// Of allowed vehicles and of groups together.
    Both,
    /// Of dimension 0, as a list of one filter.
    Dimensions,
}

// Makes a move if it is one and the filter lets it pass; answers whether that was so.
fn try_move<F: PathFilter, L: Ledger>(
    closed: Closed<'_>,
    filter: &mut F,
    routes: &mut Routes,
    mv: Move,
    blank: Blank,
) -> Result<bool, NoMemory>
    requires name { blank.name ≡ L.name }
    requires parts { blank.parts ≡ L.parts }
    requires some { 0 < blank.parts }
    requires of_model { routes.old.visits ≡ visits closed.model.now }
    requires stands { F.stands_at filter.old routes.old }
    ensures of_model { OnOk result (routes.new.visits ≡ visits closed.entry.model.now) }
    ensures stands { OnOk result (F.stands_at filter.new routes.new) }
{
    let Some(change) = Change::of(closed.model, routes, mv) else {
        return Ok(false);
    };
    let mut steps = Steps::<L>::new(blank);
    if !filter.passes(routes, &change, &mut steps)? {
        return Ok(false);
    }
    filter.prepare(routes, &change)?;
    filter.commit(routes, &change);
    routes.commit(&change);
    Ok(true)
}

// Whether a filter answers each of some moves, made one after another, as expected.
fn follows<F: PathFilter>(
    closed: Closed<'_>,
    filter: &mut F,
    routes: &mut Routes,
    moves: &[(Move, bool)],
) -> Result<bool, NoMemory>
    requires of_model { routes.old.visits ≡ visits closed.model.now }
    requires stands { F.stands_at filter.old routes.old }
{
    for &(mv, expected) in moves {
        if try_move::<F, Brand>(closed, filter, routes, mv, Blank::new(1))? != expected {
            return Ok(false);
        }
    }
    Ok(true)
}

// Whether the filter of the first dimension does so, as a list of one filter.
fn dimensions_follow(
    alloc: Global,
    closed: Closed<'_>,
    routes: &mut Routes,
    moves: &[(Move, bool)],
) -> Result<bool, NoMemory>
    requires of_model { routes.old.visits ≡ visits closed.model.now }
    requires valid { IsTrue (is_valid closed.model.now routes.old.lists) }
    requires some { 0 < length closed.model.now.dimensions }
{
    let mut filters = Vec::with_capacity(alloc, 1)?;
    filters.push(DimensionFilter::open(alloc, closed.model, 0, routes)?)?;
    let mut each = Each { filters };
    follows(closed, &mut each, routes, moves)
}

/// Whether a filter answers moves from valid routes as expected.
pub(crate) fn passes(
    alloc: Global,
    closed: Closed<'_>,
    routes: &mut Routes,
    filter: Filter,
    moves: &[(Move, bool)],
) -> Result<bool, NoMemory>
    requires of_model { routes.old.visits ≡ visits closed.model.now }
    requires valid { IsTrue (is_valid closed.model.now routes.old.lists) }
{
    let model = closed.model;
    match filter {
        Filter::Groups => {
            let mut groups = GroupFilter::open(alloc, model, routes)?;
            follows(closed, &mut groups, routes, moves)
        }
        Filter::Vehicles => {
            let mut vehicles = VehicleFilter::open(alloc, model, routes)?;
            follows(closed, &mut vehicles, routes, moves)
        }
        Filter::Pairs => {
            let mut pairs = PairFilter::open(alloc, model, routes)?;
            follows(closed, &mut pairs, routes, moves)
        }
        Filter::Both => {
            let a = VehicleFilter::open(alloc, model, routes)?;
            let b = GroupFilter::open(alloc, model, routes)?;
            follows(closed, &mut Both { a, b }, routes, moves)
        }
        Filter::Dimensions if model.dimensions.is_empty() => Ok(false),
        Filter::Dimensions => dimensions_follow(alloc, closed, routes, moves),
    }
}

// The lists of two vehicles without visits.
const EMPTY: &[&[u32]] = &[&[], &[]];

const ONE_TWO: &[&[u32]] = &[&[1, 2]];

#[rattlefmt::skip]
const MANY: &[&[u32]] = &[&[1, 2, 3, 4, 5, 6, 7, 8, 9, 10, 11, 12, 13, 14, 15, 16, 17, 18, 19, 20]];

const REVERSED: Move = Move::TwoOpt { v: 0, a: 0, b: 1 };

const FIRST_LEAVES: Move = Move::MakeInactive { v: 0, a: 0 };

// A visit that may stay away is put into the list of a vehicle.
const TWO_BEHIND: Move = Move::MakeActive { u: 2, w: 0, t: 1 };

const TWO_IN_FRONT: Move = Move::MakeActive { u: 2, w: 0, t: 0 };

const THREE_BEHIND: Move = Move::MakeActive { u: 3, w: 0, t: 1 };

const FOUR_TO_FIRST: Move = Move::MakeActive { u: 4, w: 0, t: 0 };

const FOUR_TO_SECOND: Move = Move::MakeActive { u: 4, w: 1, t: 0 };

#[rattlefmt::skip]
const FIRST_GOES_OVER: Move = Move::Relocate { v: 0, a: 0, w: 1, t: 0 };

// A pair is put across another one, or inside it.
#[rattlefmt::skip]
const ACROSS: Move = Move::PairActive { p: 1, w: 0, s: 1, t: 2 };

#[rattlefmt::skip]
const INSIDE: Move = Move::PairActive { p: 1, w: 0, s: 1, t: 1 };

#[rattlefmt::skip]
static RULES: [Row; 7] = [
    Row { name: "a required visit stays", text: THREE, lists: ONE_TWO,
        asks: Asks::Filter(Filter::Groups, &[(FIRST_LEAVES, false), (REVERSED, true)]) },
    Row { name: "an optional visit leaves and comes back", text: OPTIONAL, lists: &[&[2, 1]],
        asks: Asks::Filter(Filter::Groups, &[(FIRST_LEAVES, true), (FIRST_LEAVES, false), (TWO_BEHIND, true)]) },
    Row { name: "a visit allows the first vehicle alone", text: WINDOWS, lists: EMPTY,
        asks: Asks::Filter(Filter::Vehicles,
            &[(FOUR_TO_SECOND, false), (FOUR_TO_FIRST, true), (FIRST_GOES_OVER, false)]) },
    Row { name: "allowed vehicles and groups together", text: WINDOWS, lists: EMPTY,
        asks: Asks::Filter(Filter::Both, &[(FOUR_TO_SECOND, false), (FOUR_TO_FIRST, true), (FIRST_LEAVES, true)]) },
    Row { name: "without a pair a visit leaves", text: THREE, lists: ONE_TWO,
        asks: Asks::Filter(Filter::Pairs, &[(FIRST_LEAVES, true)]) },
    Row { name: "a pair stays whole and in order", text: PAIR, lists: ONE_TWO,
        asks: Asks::Filter(Filter::Pairs,
            &[(FIRST_LEAVES, false), (REVERSED, false), (Move::PairInactive { p: 0 }, true)]) },
    Row { name: "a pair goes inside another one, not across it", text: LIFO, lists: ONE_TWO,
        asks: Asks::Filter(Filter::Pairs,
            &[(ACROSS, false), (INSIDE, true), (Move::TwoOpt { v: 0, a: 2, b: 3 }, false)]) },
];

#[test]
fn filters_of_groups_vehicles_and_pairs_answer(rt: HostRuntime) {
    assert_rows(&rt, rt.alloc(), &RULES);
}

// Moves to the first vehicle of four visits with windows, and one to the second.
#[rattlefmt::skip]
const TO_FIRST: &[(Move, bool)] = &[
    (Move::MakeActive { u: 1, w: 0, t: 0 }, true),
    (TWO_BEHIND, true),
    (REVERSED, false),
    (Move::MakeActive { u: 3, w: 0, t: 2 }, true),
    (Move::MakeActive { u: 4, w: 0, t: 2 }, false),
    (Move::MakeActive { u: 4, w: 0, t: 3 }, true),
    (Move::Relocate { v: 0, a: 2, w: 1, t: 0 }, true),
    (Move::Exchange { v: 0, a: 0, w: 1, b: 0 }, false),
];

// Moves of two visits between a vehicle with breaks and one without.
const WITH_BREAKS: &[(Move, bool)] = &[
    (TWO_IN_FRONT, true),
    (Move::MakeActive { u: 1, w: 0, t: 1 }, false),
    (Move::MakeActive { u: 1, w: 0, t: 0 }, true),
    (REVERSED, false),
    (FIRST_GOES_OVER, true),
];

#[rattlefmt::skip]
static SCHEDULES: [Row; 6] = [
    Row { name: "no cumul in a gap between two runs", text: GAP, lists: &[&[2, 1]],
        asks: Asks::Filter(Filter::Dimensions, &[(REVERSED, false)]) },
    Row { name: "the same once a visit is put in front", text: GAP, lists: &[&[1]],
        asks: Asks::Filter(Filter::Dimensions, &[(TWO_IN_FRONT, true), (REVERSED, false)]) },
    Row { name: "windows and many forbidden intervals", text: WINDOWS, lists: EMPTY,
        asks: Asks::Filter(Filter::Dimensions, TO_FIRST) },
    Row { name: "breaks", text: BREAKS, lists: EMPTY,
        asks: Asks::Filter(Filter::Dimensions, WITH_BREAKS) },
    Row { name: "a load", text: LOAD, lists: ONE_TWO,
        asks: Asks::Filter(Filter::Dimensions, &[(THREE_BEHIND, false), (FIRST_LEAVES, true), (THREE_BEHIND, true)]) },
    Row { name: "two of twenty visits change places, within the weight of that", text: TWENTY, lists: MANY,
        asks: Asks::Filter(Filter::Dimensions, &[(Move::TwoOpt { v: 0, a: 5, b: 6 }, true)]) },
];

#[test]
fn filters_of_dimensions_answer(rt: HostRuntime) {
    assert_rows(&rt, rt.alloc(), &SCHEDULES);
}
