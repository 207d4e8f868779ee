//! How much a step takes out of routes.

ghost use Rattle.std.specs.Prelude.{◌≡◌, ◌+◌, ◌<◌, ◌≤◌, ◌==◌, IsTrue, cond, length};
ghost use Rattle.vr_model.specs.routes.Routes.{holds, used_vehicles};
ghost use Rattle.vr_strings.specs.Strings.{active_count, greatest_count as greatest_count_of};
ghost use Rattle.vr_strings.specs.Strings.{greatest_string as greatest_string_of, step_size};

use crate::words::Words;
use vr_routes::Routes;

/// What a search by ruin and recreate goes by.
#[derive(Clone, Copy)]
pub struct Ruin {
    /// About how many visits a step takes out, `1..=100`.
    pub removed: u32,
    /// How many visits a string takes out at most, `1..=100`.
    pub string: u32,
    /// The heat with which the search begins, `0..=2^40`, in units of cost.
    pub heat: u64,
}

/// How much a step takes out of routes.
#[derive(Clone, Copy)]
pub struct StepSize {
    /// The visit at which it begins.
    pub centre: u32,
    /// How many visits a string takes out at most, 1 or more.
    pub longest: u32,
    /// How many routes are cut at most, 1 or more.
    pub count: u32,
}

// How many visits are in routes, and how many vehicles are used.
#[derive(Clone, Copy)]
struct Counts {
    active: u32,
    used: u32,
}

// Counts them, list by list.
fn count(routes: &Routes) -> Counts
    ensures active { result.active ≡ active_count routes.now.lists }
    ensures used { result.used ≡ length (used_vehicles routes.now.lists) }
    ensures few { result.active ≤ 100000 }
{
    let mut counts = Counts { active: 0, used: 0 };
    for v in 0..routes.vehicles() {
        counts = with_list(counts, routes.len(v));
    }
    counts
}

// The counts with one list more.
fn with_list(counts: Counts, length: u32) -> Counts
    requires active { counts.active ≤ 100000 }
    requires used { counts.used ≤ 1000 }
    requires few { length ≤ 1000 }
    ensures active { result.active ≡ counts.active + length }
    ensures used { result.used ≡ cond (length == 0) counts.used (counts.used + 1) }
{
    let used = if length == 0 {
        counts.used
    } else {
        counts.used + 1
    };
    Counts {
        active: counts.active + length,
        used,
    }
}

// How many visits a string may take out: as many as a used route has on average, and at most `string`.
fn greatest_string(string: u32, routes: &Routes) -> u32
    ensures value { result ≡ greatest_string_of string routes.now.lists }
    ensures some { 1 ≤ result }
    ensures few { result ≤ 100000 }
{
    let counts = count(routes);
    if counts.used == 0 {
        return 1;
    }
    1.max(string.min(counts.active / counts.used))
}

// How many routes a step may cut.
fn greatest_count(removed: u32, longest: u32) -> u32
    requires removed { removed ≤ 100 }
    requires longest { longest ≤ 100000 }
    ensures value { result ≡ greatest_count_of removed longest }
    ensures some { 1 ≤ result }
    ensures few { result ≤ 100400 }
{
    let share = (4 * removed + longest) / (1 + longest);
    1.max(share.saturating_sub(1))
}

/// Draws how much a step takes out of routes. First it draws the visit at which it begins, out of `visits`, and then
/// how many routes are cut. A string is at most as long as a used route is on average. It makes two draws and takes no
/// memory.
pub fn draw_step_size(ruin: Ruin, visits: &[u32], routes: &Routes, words: &mut Words) -> StepSize
    requires some { 0 < length visits.now }
    requires few { length visits.now ≤ 1000 }
    requires removed { ruin.removed ≤ 100 }
    ensures value { (result, words.new) ≡ step_size visits.now ruin routes.now.lists words.old }
    ensures centre { IsTrue (holds visits.now result.centre) }
    ensures longest { 1 ≤ result.longest }
    ensures count { 1 ≤ result.count }
{
    let longest = greatest_string(ruin.string, routes);
    let centre = visits[words.draw(visits.len() as u32) as usize];
    let count = 1 + words.draw(greatest_count(ruin.removed, longest));
    StepSize {
        centre,
        longest,
        count,
    }
}
