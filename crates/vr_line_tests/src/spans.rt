//! Least spans of lines of one visit, and their schedules.

ghost use Rattle.std.specs.Prelude.{◌≡◌, []};
ghost use Rattle.vr_steps.specs.Lines.{IsSoundLine};

use crate::lines::line_of;
use std::alloc::Global;
use std::test::Fail;
use vr_samples::all_hold;
use vr_span::span;
use vr_steps::Line;

// The fields of a dimension without breaks, and the least span of the line in it with its schedule: without cumuls if
// there is none.
struct Row {
    name: &'static str,
    fields: &'static str,
    span: i64,
    cumuls: &'static [i64],
    slacks: &'static [i64],
}

// The earliest schedules of the first, second and last row are [1, 9, 14], [0, 30, 40] and [2, 10, 17].
#[rattlefmt::skip]
static ROWS: [Row; 4] = [
    Row { name: "the start waits", span: 10, cumuls: &[4, 9, 14], slacks: &[0, 0],
        fields: r#""evaluators":[{"matrix":0}],"slack_max":3,"capacity":100,
"nodes":[{"node":1,"forbidden":[[5,8]]}]"# },
    Row { name: "the start waits for a window", span: 20, cumuls: &[20, 30, 40], slacks: &[0, 0],
        fields: r#""evaluators":[{"matrix":1}],"slack_max":20,"capacity":100,"nodes":[{"node":1,"window":[30,40]}]"# },
    Row { name: "no wait is long enough", span: 0, cumuls: &[], slacks: &[],
        fields: r#""evaluators":[{"matrix":0}],"slack_max":3,"capacity":100,"fix_start":true,
"nodes":[{"node":1,"forbidden":[[5,8]]}]"# },
    Row { name: "a start that may not wait for long", span: 14, cumuls: &[3, 10, 17], slacks: &[2, 2],
        fields: r#""evaluators":[{"matrix":0}],"slack_max":3,"capacity":100,
"starts":[{"vehicle":0,"window":[0,3]}],"ends":[{"vehicle":0,"forbidden":[[0,16]]}],
"nodes":[{"node":1,"forbidden":[[5,9],[12,13],[15,15],[18,22],[24,28]]}]"# },
];

fn is_wanted(alloc: Global, line: &Line, row: &Row) -> bool
    requires sound { IsSoundLine line.now }
    requires no_breaks { line.now.breaks ≡ [] }
{
    match span(alloc, line) {
        Ok(Some(least)) => {
            least.span == row.span
                && least.plan.cumuls.as_slice() == row.cumuls
                && least.plan.slacks.as_slice() == row.slacks
                && least.plan.breaks.is_empty()
        }
        Ok(None) => row.cumuls.is_empty(),
        Err(_) => false,
    }
}

fn holds_of(alloc: Global, line: &Line, row: &Row) -> bool
    requires { IsSoundLine line.now }
{
    line.breaks.rows.is_empty() && is_wanted(alloc, line, row)
}

fn holds(alloc: Global, row: &Row) -> bool {
    match line_of(alloc, row.fields) {
        Some(line) => holds_of(alloc, &line, row),
        None => false,
    }
}

#[test]
fn spans_are_least(rt: HostRuntime) -> Result<(), Fail> {
    all_hold(&ROWS, &|row: &Row| (row.name, holds(rt.alloc(), row)))
}
