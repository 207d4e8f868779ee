//! Nanoseconds of hot paths. `vr_bench WORK ROUNDS` times one of these works:
//!
//! - `crossing`: crossing an arc.
//! - `meet`: the meet of two sets.
//! - `moves`: listing the moves of the model's neighbourhoods and making their changes.
//! - `judge`: judging the first of them.
//! - `schedule`: the earliest schedule of the first list in the first dimension.
//!
//! `crossing` and `meet` make what they need themselves. The others read a model from standard input and begin with its
//! first solution by the cheapest arcs. `bench/run` runs them beside plain Rust.
//!
//! `vr_bench ask PLACE` takes no time. It prints what the judge says of one move of that solution, or that memory ran
//! out when it was asked. `bench/refuse` runs it. Without words nothing is printed.
//!
//! A function owns one large value at most, and lends it on. Start at `input`, which chooses the work.
#![tactic(auto)]

mod crossing;
mod input;
mod judged;
mod listed;
mod report;
mod schedules;
mod solved;
mod stop;
mod verdict;

use crate::crossing::{time_crossings, time_meets};
use crate::input::work_on_input;
use crate::stop::Stop;
use std::env;

fn main(rt: HostRuntime) -> Result<(), Stop> {
    let mut words = env::args(&rt)?.skip(1);
    let (Some(what), Some(number)) = (words.next(), words.next()) else {
        return Ok(());
    };
    let Ok(number) = number.as_str().parse::<u32>() else {
        return Err(Stop::NoNumber);
    };
    let alloc = rt.alloc();
    match what.as_str() {
        "crossing" => time_crossings(&rt, alloc, number),
        "meet" => time_meets(&rt, alloc, number),
        other => work_on_input(&rt, alloc, other, number),
    }
}
