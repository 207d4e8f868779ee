//! The ruin of a step: strings are taken out of neighbouring routes.

ghost use Rattle.std.specs.Prelude.{◌≡◌, ◌<◌, ◌≤◌, ◌==◌, OnOk, length};
ghost use Rattle.vr_model.specs.routes.Routes.{holds};
ghost use Rattle.vr_model.specs.tables.Tables.{visits};
ghost use Rattle.vr_routes.specs.Seats.{IsSeat};
ghost use Rattle.vr_strings.specs.Strings.{cut_at_visit, cut_in as cut_in_of, ruined};
ghost use Rattle.vr_ruin.specs.Cuttings.{ruined_of};

use crate::trial::Trial;
use std::alloc::Global;
use vr_model::NoMemory;
use vr_routes::Seat;
use vr_strings::{Rings, Ruin, StepSize, Words, draw_step_size, draw_string};

// Whether a vehicle is among some.
fn is_cut(cut: &[u32], v: u32) -> bool
    ensures { result ≡ holds cut.now v }
{
    for &w in cut {
        if v == w {
            return true;
        }
    }
    false
}

// Whether as many routes were cut as are to be.
fn is_enough(cut: &[u32], count: u32) -> bool
    ensures { result ≡ (length cut.now == count) }
{
    cut.len() == count as usize
}

// Cuts the route in which a visit is, at a string that is drawn.
fn cut_at_seat(
    trial: &mut Trial<'_>,
    visit: u32,
    seat: Seat,
    longest: u32,
    cut: &mut Vec<u32>,
    words: &mut Words,
) -> Result<(), NoMemory>
    requires longest { 1 ≤ longest }
    requires seat { IsSeat trial.old.lists visit seat.vehicle seat.place }
    ensures model { trial.new.model ≡ trial.old.model }
    ensures value { OnOk result (ruined_of trial.new.lists cut.new.items words.new
        ≡ cut_in_of trial.old.model longest visit seat.vehicle
        (ruined_of trial.old.lists cut.old.items words.old)) }
{
    let routes = trial.routes();
    routes.know_once();
    let n = routes.len(seat.vehicle);
    let string = draw_string(longest, n, seat.place, words);
    trial.cut(seat.vehicle, string)?;
    cut.insert(0, seat.vehicle)?;
    Ok(())
}

// A visit in its turn. Its route is cut, unless it is in none, or that was cut before, or enough routes were cut.
fn cut_at(
    trial: &mut Trial<'_>,
    visit: u32,
    size: StepSize,
    cut: &mut Vec<u32>,
    words: &mut Words,
) -> Result<(), NoMemory>
    requires longest { 1 ≤ size.longest }
    ensures model { trial.new.model ≡ trial.old.model }
    ensures value { OnOk result (ruined_of trial.new.lists cut.new.items words.new
        ≡ cut_at_visit trial.old.model size.longest size.count
        (ruined_of trial.old.lists cut.old.items words.old) visit) }
{
    if is_enough(cut, size.count) {
        return Ok(());
    }
    let routes = trial.routes();
    routes.know_once();
    match routes.seat(visit) {
        None => Ok(()),
        Some(seat) => {
            if is_cut(cut, seat.vehicle) {
                return Ok(());
            }
            cut_at_seat(trial, visit, seat, size.longest, cut, words)
        }
    }
}

/// Takes strings out of routes with visits. It is drawn how much, and the visits are gone through from the drawn one
/// on. If memory runs out some routes are cut.
pub(crate) fn cut_routes(
    alloc: Global,
    trial: &mut Trial<'_>,
    rings: &mut Rings<'_>,
    ruin: Ruin,
    cut: &mut Vec<u32>,
    words: &mut Words,
) -> Result<(), NoMemory>
    requires rings { rings.old.model ≡ trial.old.model }
    requires some { 0 < length (visits trial.old.model) }
    requires removed { ruin.removed ≤ 100 }
    ensures model { trial.new.model ≡ trial.old.model }
    ensures rings { rings.new.model ≡ rings.old.model }
    ensures value { OnOk result (ruined_of trial.new.lists cut.new.items words.new
        ≡ ruined trial.old.model ruin trial.old.lists words.old) }
{
    cut.clear();
    let size = draw_step_size(ruin, rings.visits(), trial.routes(), words);
    rings.make(alloc, size.centre)?;
    let around = rings.ring(size.centre);
    for &visit in around {
        cut_at(trial, visit, size, cut, words)?;
    }
    Ok(())
}
