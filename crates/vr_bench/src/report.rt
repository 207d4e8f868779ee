//! A line of figures.

use std::io;

/// How often a time is taken; the least counts.
pub(crate) const TIMES: u32 = 5;

/// What was timed: this many calls, the sum of what they gave, and the nanoseconds they took.
#[derive(Clone, Copy)]
pub(crate) struct Timed {
    pub calls: u128,
    pub sum: i64,
    pub nanos: u128,
}

/// Prints the nanoseconds of a call.
pub(crate) fn report(rt: &impl Print, name: &str, timed: Timed) -> io::Result<()> {
    let tenths = timed.nanos.saturating_mul(10) / timed.calls.max(1);
    println!(rt;
        "{name}: {}.{} ns (sum {})",
        tenths / 10,
        tenths % 10,
        timed.sum
    )
}
