//! What is reached at the visit of a line, and walks that join what is known of it. The sets have more runs than are
//! held in place.

ghost use Rattle.std.specs.Prelude.{◌≡◌, ◌<◌, ◌≤◌, All, length};
ghost use Rattle.vr_model.specs.tables.WellFormed.{IsBreak};
ghost use Rattle.vr_steps.specs.Arcs.{IsSoundHop};
ghost use Rattle.vr_steps.specs.Levels.{IsCumuls};
ghost use Rattle.vr_steps.specs.Lines.{IsSoundLine};

use crate::levels::{Extent, NOTHING, have};
use crate::lines::line_of;
use std::alloc::Global;
use std::marker::Brand;
use std::sync::ledger::{Blank, Ledger};
use std::test::Fail;
use vr_model::{NoMemory, Steps};
use vr_reach::{Rows, Walk};
use vr_samples::all_hold;
use vr_spans::Spans;
use vr_steps::{Breaks, Hop, Line};

// The fields of a dimension, and whether the line has a schedule in it. Then what is reached at the visit, and what
// reaches the end from there.
type Row = (&'static str, &'static str, bool, Extent, Extent);

// The arcs of transit 5 may wait up to 3, and the visit allows six runs: 0..=4, four single cumuls and 25..=100.
#[rattlefmt::skip]
static ROWS: [Row; 2] = [
    ("a start that may wait", r#""evaluators":[{"matrix":0}],"slack_max":3,"capacity":100,
"nodes":[{"node":1,"forbidden":[[5,8],[10,12],[14,16],[18,20],[22,24]]}]"#,
        true, (5, Some(9), Some(100)), (6, Some(0), Some(95))),
    ("a start at 0", r#""evaluators":[{"matrix":0}],"slack_max":3,"capacity":100,"fix_start":true,
"nodes":[{"node":1,"forbidden":[[5,8],[10,12],[14,16],[18,20],[22,24]]}]"#,
        false, NOTHING, (6, Some(0), Some(95))),
];

// An arc of a line: what the stop before it and the one after it allow, and the breaks.
#[derive(Clone, Copy)]
struct Arc<'a> {
    here: &'a Spans,
    hop: Hop,
    next: &'a Spans,
    breaks: &'a Breaks,
}

// Whether a walk that begins at a stop and steps along an arc joins the rows.
fn steps_and_joins<L: Ledger>(
    alloc: Global,
    arc: Arc<'_>,
    rows: &Rows,
    blank: Blank,
) -> Result<bool, NoMemory>
    requires name { blank.name ≡ L.name }
    requires parts { blank.parts ≡ L.parts }
    requires some { 0 < blank.parts }
    requires here { IsCumuls arc.here.now }
    requires hop { IsSoundHop arc.hop }
    requires next { IsCumuls arc.next.now }
    requires breaks { All IsBreak arc.breaks.now }
    requires few { length arc.breaks.now ≤ 8 }
    requires behind { 1 < length rows.now.backward }
{
    let mut steps = Steps::<L>::new(blank);
    let mut walk = Walk::fresh(alloc, arc.here, arc.breaks)?;
    walk.step(arc.hop, arc.next, arc.breaks, &mut steps)?;
    let joins = walk.joins(rows, 1, &mut steps);
    Ok(joins)
}

// Whether a walk that is opened at the visit joins the rows there.
fn opens_and_joins<L: Ledger>(alloc: Global, rows: &Rows, blank: Blank) -> Result<bool, NoMemory>
    requires name { blank.name ≡ L.name }
    requires parts { blank.parts ≡ L.parts }
    requires some { 0 < blank.parts }
    requires ahead { 1 < length rows.now.forward }
    requires behind { 1 < length rows.now.backward }
{
    let mut steps = Steps::<L>::new(blank);
    let walk = Walk::open(alloc, rows, 1)?;
    let joins = walk.joins(rows, 1, &mut steps);
    Ok(joins)
}

// Whether rows and walks find what is wanted.
fn all_find(alloc: Global, line: &Line, rows: &Rows, row: &Row) -> Result<bool, NoMemory>
    requires line { IsSoundLine line.now }
    requires ahead { 1 < length rows.now.forward }
    requires behind { 1 < length rows.now.backward }
{
    let here = line.allowed.get(0);
    let hop = *line.hops.get(0);
    let next = line.allowed.get(1);
    let arc = Arc {
        here,
        hop,
        next,
        breaks: &line.breaks,
    };
    let steps = steps_and_joins::<Brand>(alloc, arc, rows, Blank::new(1))?;
    let opens = opens_and_joins::<Brand>(alloc, rows, Blank::new(1))?;
    let ahead = have(rows.forward(1), &[row.3]);
    let back = have(rows.backward(1), &[row.4]);
    Ok([rows.feasible(), steps, opens] == [row.2; 3] && ahead && back)
}

fn holds_of(alloc: Global, line: &Line, row: &Row) -> bool
    requires { IsSoundLine line.now }
{
    match Rows::build(alloc, line) {
        Ok(rows) => matches!(all_find(alloc, line, &rows, row), Ok(true)),
        Err(_) => false,
    }
}

fn holds(alloc: Global, row: &Row) -> bool {
    match line_of(alloc, row.1) {
        Some(line) => holds_of(alloc, &line, row),
        None => false,
    }
}

#[test]
fn walks_find_what_rows_hold(rt: HostRuntime) -> Result<(), Fail> {
    all_hold(&ROWS, &|row: &Row| (row.0, holds(rt.alloc(), row)))
}
