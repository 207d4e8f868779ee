//! Loops along a list for the first place whose move adds less than a bound to the arc costs:
//! - of parts that are reversed, by their last place;
//! - of gaps into which a chain or a delivery is put, or, for `crosses`, in which a list is cut;
//! - of nodes that are exchanged.

ghost use Rattle.std.specs.Prelude.{◌≡◌, ℕ, ◌+◌, ◌<◌, ◌≤◌, ◌+ℤ◌, ◌≤ℤ◌, length, slice_index};
ghost use Rattle.vr_parts.specs.Bounds.{IsAddedByChange, IsAddedByList};
ghost use Rattle.vr_arccosts.specs.Runs.{ends_added, gap_added};
ghost use Rattle.vr_arccosts.specs.Runs.{pair_added, swap_added, turn_added, IsPutChain};

use crate::lines::Line;
use vr_model::Pair;

/// The numbers of a run that are asked: those from `from` on, below `end`. Loops look for the first whose move may add
/// less than `bound`.
#[derive(Clone, Copy)]
pub struct Asked {
    pub from: u32,
    pub end: u32,
    pub bound: i64,
    pub ghost order: { from ≤ end },
}

impl Asked {
    /// The numbers from another first one on.
    #[inline(always)]
    pub fn starting(self, from: u32) -> Asked
        requires order { from ≤ self.end }
        ensures from { result.from ≡ from }
        ensures end { result.end ≡ self.end }
        ensures bound { result.bound ≡ self.bound }
    {
        Asked {
            from,
            end: self.end,
            bound: self.bound,
        }
    }

    /// The numbers below another end.
    #[inline(always)]
    pub fn ending(self, end: u32) -> Asked
        requires order { self.from ≤ end }
        ensures from { result.from ≡ self.from }
        ensures end { result.end ≡ end }
        ensures bound { result.bound ≡ self.bound }
    {
        Asked {
            from: self.from,
            end,
            bound: self.bound,
        }
    }
}

/// The first and the last node of a chain.
#[derive(Clone, Copy)]
pub struct Ends {
    pub first: u32,
    pub last: u32,
}

/// A chain that is put into a gap of a line, and what else the move adds.
#[derive(Drop)]
pub struct Put<'p, 'a, 'm> {
    pub line: &'p Line<'a, 'm>,
    pub ends: Ends,
    pub base: i64,
    pub ghost sound: { IsPutChain line.now.costs.model.now ends.first ends.last base },
}

impl<'a, 'm> Line<'a, 'm> {
    // How much more the arcs to and from a chain cost than what is there now. That is what is between the stop before
    // place `front` and the stop at place `behind`.
    #[inline(always)]
    fn ends_added(&self, ends: Ends, front: u32, behind: u32) -> i64
        requires first { ends.first < self.now.costs.model.now.nodes }
        requires last { ends.last < self.now.costs.model.now.nodes }
        requires order { front ≤ behind }
        requires place { behind ≤ length self.now.list.now }
        ensures value { result ≡ ends_added self.now.costs.model.now self.now.costs.vehicle self.now.list.now
            front behind ends.first ends.last }
        ensures range { IsAddedByList result }
    {
        let to = self.costs.cost(self.node_before(front), ends.first);
        let on = self.costs.cost(ends.last, self.node_at(behind));
        let old = self.along.stretch(self.list.len() as u32, front, behind);
        to + on - old
    }
}

/// The first last place of a reversed part, which begins at place `a`, with which the arcs cost less than the bound
/// more. The answer is `end` if there is none.
#[inline(always)]
pub fn first_turn(line: &Line, a: u32, asked: Asked) -> u32
    requires order { a < asked.from }
    requires places { asked.end ≤ length line.now.list.now }
    ensures from { asked.from ≤ result }
    ensures within { result ≤ asked.end }
    ensures no_less { (b : ℕ) → asked.from ≤ b → b < result
        → asked.bound ≤ℤ turn_added line.now.costs.model.now line.now.costs.vehicle line.now.list.now a b }
{
    for b in asked.from..asked.end {
        if turned(line, a, b) < asked.bound {
            return b;
        }
    }
    asked.end
}

// How much more the arcs cost if places `a` to `b` are reversed.
#[inline(always)]
fn turned(line: &Line, a: u32, b: u32) -> i64
    requires order { a < b }
    requires place { b < length line.now.list.now }
    ensures value { result ≡ turn_added line.now.costs.model.now line.now.costs.vehicle line.now.list.now a b }
    ensures range { IsAddedByChange result }
{
    let ends = Ends {
        first: line.list[b as usize],
        last: line.list[a as usize],
    };
    let beside = line.ends_added(ends, a, b + 1);
    let inner = line.along.chain(true, a, b + 1);
    beside + inner
}

/// The first place for a chain, put before it, with which the arcs cost less than the bound more. What else the move
/// adds counts too. The answer is `end` if there is none.
#[inline(never)]
pub fn first_gap(put: &Put, asked: Asked) -> u32
    requires places { asked.end ≤ length put.now.line.now.list.now + 1 }
    ensures from { asked.from ≤ result }
    ensures within { result ≤ asked.end }
    ensures no_less { (t : ℕ) → asked.from ≤ t → t < result → asked.bound ≤ℤ (put.now.base
        +ℤ gap_added put.now.line.now.costs.model.now put.now.line.now.costs.vehicle put.now.line.now.list.now
        put.now.ends.first put.now.ends.last t) }
{
    let line = put.line;
    let ends = put.ends;
    let base = put.base;
    for t in asked.from..asked.end {
        if base + line.ends_added(ends, t, t) < asked.bound {
            return t;
        }
    }
    asked.end
}

/// The first number at which a chain of `k` nodes that leaves place `a` can be put, as [`first_gap`]. It is put before
/// its place or after it. After it, each number means the place that is `k` places later. The number `a` is passed
/// over: no move leaves the chain at its place.
#[inline(always)]
pub fn first_around(put: &Put, a: u32, k: u32, asked: Asked) -> u32
    requires places { asked.end + k ≤ length put.now.line.now.list.now + 1 }
    ensures from { asked.from ≤ result }
    ensures within { result ≤ asked.end }
    ensures in_front { (t : ℕ) → asked.from ≤ t → t < result → t < a → asked.bound ≤ℤ (put.now.base
        +ℤ gap_added put.now.line.now.costs.model.now put.now.line.now.costs.vehicle put.now.line.now.list.now
        put.now.ends.first put.now.ends.last t) }
    ensures behind { (t : ℕ) → asked.from ≤ t → t < result → a < t → asked.bound ≤ℤ (put.now.base
        +ℤ gap_added put.now.line.now.costs.model.now put.now.line.now.costs.vehicle put.now.line.now.list.now
        put.now.ends.first put.now.ends.last (t + k)) }
{
    if asked.from > a {
        return first_behind(put, k, asked.from, asked);
    }
    let t = first_in_front(put, a, asked);
    if t < a {
        return t;
    }
    if asked.end <= a + 1 {
        return asked.end;
    }
    first_behind(put, k, a + 1, asked)
}

// The first place before place `a`, as `first_gap`. The first number is not after it: `a` at most.
#[inline(always)]
fn first_in_front(put: &Put, a: u32, asked: Asked) -> u32
    requires order { asked.from ≤ a }
    requires places { asked.end ≤ length put.now.line.now.list.now + 1 }
    ensures from { asked.from ≤ result }
    ensures within { result ≤ asked.end }
    ensures no_less { (t : ℕ) → asked.from ≤ t → t < result → asked.bound ≤ℤ (put.now.base
        +ℤ gap_added put.now.line.now.costs.model.now put.now.line.now.costs.vehicle put.now.line.now.list.now
        put.now.ends.first put.now.ends.last t) }
{
    if asked.end <= a {
        return first_gap(put, asked);
    }
    let front = Asked {
        from: asked.from,
        end: a,
        bound: asked.bound,
    };
    first_gap(put, front)
}

// The first number from another first one on, as `first_gap`. Each number means the place that is `k` places later.
#[inline(always)]
fn first_behind(put: &Put, k: u32, from: u32, asked: Asked) -> u32
    requires asked { from ≤ asked.end }
    requires places { asked.end + k ≤ length put.now.line.now.list.now + 1 }
    ensures from { from ≤ result }
    ensures within { result ≤ asked.end }
    ensures no_less { (t : ℕ) → from ≤ t → t < result → asked.bound ≤ℤ (put.now.base
        +ℤ gap_added put.now.line.now.costs.model.now put.now.line.now.costs.vehicle put.now.line.now.list.now
        put.now.ends.first put.now.ends.last (t + k)) }
{
    let behind = Asked {
        from: from + k,
        end: asked.end + k,
        bound: asked.bound,
    };
    first_gap(put, behind) - k
}

/// The first of the asked places before which the delivery of a pair can be put so that the move adds less than the
/// bound. The move adds `base`, and what pickup and delivery add to the arc costs of this list. The pickup is put
/// before place `s`, which is not after the first asked place. The answer is `end` if there is none.
#[inline(never)]
pub fn first_delivery(line: &Line, pair: Pair, s: u32, base: i64, asked: Asked) -> u32
    requires pickup { pair.pickup < line.now.costs.model.now.nodes }
    requires delivery { pair.delivery < line.now.costs.model.now.nodes }
    requires base { IsAddedByList base }
    requires order { s ≤ asked.from }
    requires places { asked.end ≤ length line.now.list.now + 1 }
    ensures from { asked.from ≤ result }
    ensures within { result ≤ asked.end }
    ensures no_less { (t : ℕ) → asked.from ≤ t → t < result → asked.bound
        ≤ℤ (base +ℤ pair_added line.now.costs.model.now line.now.costs.vehicle line.now.list.now pair s t) }
{
    if asked.from == asked.end {
        return asked.end;
    }
    // a node is between both at each asked place
    if s < asked.from {
        return first_apart(line, pair, s, base, asked);
    }
    if base + put_pair(line, pair, s) < asked.bound {
        return s;
    }
    let behind = asked.starting(s + 1);
    first_apart(line, pair, s, base, behind)
}

// The first place for the delivery, as `first_delivery`, if a node is between both.
#[inline(always)]
fn first_apart(line: &Line, pair: Pair, s: u32, base: i64, asked: Asked) -> u32
    requires pickup { pair.pickup < line.now.costs.model.now.nodes }
    requires delivery { pair.delivery < line.now.costs.model.now.nodes }
    requires base { IsAddedByList base }
    requires order { s < asked.from }
    requires places { asked.end ≤ length line.now.list.now + 1 }
    ensures from { asked.from ≤ result }
    ensures within { result ≤ asked.end }
    ensures no_less { (t : ℕ) → asked.from ≤ t → t < result → asked.bound
        ≤ℤ (base +ℤ pair_added line.now.costs.model.now line.now.costs.vehicle line.now.list.now pair s t) }
{
    let pickup = Ends {
        first: pair.pickup,
        last: pair.pickup,
    };
    let delivery = Ends {
        first: pair.delivery,
        last: pair.delivery,
    };
    let put = Put {
        line,
        ends: delivery,
        base: base + line.ends_added(pickup, s, s),
    };
    first_gap(&put, asked)
}

// How much more the arcs cost if a pair is put before a place, side by side.
#[inline(always)]
fn put_pair(line: &Line, pair: Pair, s: u32) -> i64
    requires pickup { pair.pickup < line.now.costs.model.now.nodes }
    requires delivery { pair.delivery < line.now.costs.model.now.nodes }
    requires place { s ≤ length line.now.list.now }
    ensures value { result
        ≡ pair_added line.now.costs.model.now line.now.costs.vehicle line.now.list.now pair s s }
    ensures range { IsAddedByChange result }
{
    let ends = Ends {
        first: pair.pickup,
        last: pair.delivery,
    };
    let inner = line.costs.cost(pair.pickup, pair.delivery);
    line.ends_added(ends, s, s) + inner
}

/// The first place of another list at which the arcs of both lists cost less than the bound more with an exchange. Its
/// node and that at place `a` of this list take each other's place. It may be of this list too, if the two nodes are
/// not side by side. The answer is `end` if there is none.
#[inline(never)]
pub fn first_swap(line: &Line, a: u32, other: &Line, asked: Asked) -> u32
    requires same { other.now.costs.model.now ≡ line.now.costs.model.now }
    requires place { a < length line.now.list.now }
    requires places { asked.end ≤ length other.now.list.now }
    ensures from { asked.from ≤ result }
    ensures within { result ≤ asked.end }
    ensures no_less { (b : ℕ) → asked.from ≤ b → b < result → asked.bound
        ≤ℤ (swap_added line.now.costs.model.now line.now.costs.vehicle line.now.list.now a
        (slice_index other.now.list.now b)
        +ℤ swap_added line.now.costs.model.now other.now.costs.vehicle other.now.list.now b
        (slice_index line.now.list.now a)) }
{
    let node = line.list[a as usize];
    for b in asked.from..asked.end {
        if swapped(line, a, other.list[b as usize]) + swapped(other, b, node) < asked.bound {
            return b;
        }
    }
    asked.end
}

/// How much more the arcs cost if another node is at a place.
#[inline(always)]
pub fn swapped(line: &Line, place: u32, node: u32) -> i64
    requires node { node < line.now.costs.model.now.nodes }
    requires place { place < length line.now.list.now }
    ensures value { result
        ≡ swap_added line.now.costs.model.now line.now.costs.vehicle line.now.list.now place node }
    ensures range { IsAddedByList result }
{
    let ends = Ends {
        first: node,
        last: node,
    };
    line.ends_added(ends, place, place + 1)
}
