//! What a cut leaves of routes.

ghost use Rattle.std.specs.Prelude.{◌≡◌, ◌+◌, ◌<◌, ◌≤◌, IfOk, IsTrue, OnOk, length, min};
ghost use Rattle.vr_model.specs.first.Items.{pair_of as pair_in};
ghost use Rattle.vr_model.specs.routes.Routes.{are_lists, holds, route};
ghost use Rattle.vr_lns.specs.Chains.{is_between as is_between_of};
ghost use Rattle.vr_lns.specs.Cutters.{AreRoutesOf};
ghost use Rattle.vr_lns.specs.Cuts.{cut_chain, goes_with as goes_with_of, left_by, without_chain as without_chain_of};

use crate::cutting::Cut;
use std::alloc::Global;
use vr_model::{NoMemory, Pair, Seq};
use vr_plan::Lookups;
use vr_routes::{Routes, Seat};

/// A cut of routes, its chain of at most `most` visits: the other nodes of their pairs do not count.
#[derive(Clone, Copy)]
pub(crate) struct CutOf<'l, 'm, 'r> {
    pub(crate) lookups: &'l Lookups<'m>,
    pub(crate) routes: &'r Routes,
    pub(crate) at: Cut,
    pub(crate) most: u32,
    ghost lists: { IsTrue (are_lists lookups.now.closed.model.now routes.now.lists) },
    ghost vehicle: { at.vehicle < length routes.now.lists },
    ghost place: { at.place < length (route routes.now.lists at.vehicle) },
    ghost few: { most ≤ 100 },
}

// Whether a seat lies in the chain of a cut, which ends before place `end` of its list.
fn is_between(seat: Seat, at: Cut, end: u32) -> bool
    ensures { result ≡ is_between_of at end seat }
{
    seat.vehicle == at.vehicle && at.place <= seat.place && seat.place < end
}

// Whether a node is in the chain that a cut takes out.
fn is_in_chain(cut: &CutOf<'_, '_, '_>, node: u32) -> bool
    ensures { result ≡ holds (cut_chain cut.now.most cut.now.routes.now.lists cut.now.at) node }
{
    let (routes, at) = (cut.routes, cut.at);
    let length = routes.len(at.vehicle);
    let end = (at.place + cut.most).min(length);
    match routes.seat(node) {
        Some(seat) => is_between(seat, at, end),
        None => false,
    }
}

// The pair that a node is in.
fn pair_of(lookups: &Lookups<'_>, node: u32) -> Option<Pair>
    ensures { result ≡ pair_in lookups.now.closed.model.now node }
{
    lookups.nodes().pair_of(node)
}

// Whether a node goes with that chain: it or the other node of its pair is in it.
fn goes_with(cut: &CutOf<'_, '_, '_>, node: u32) -> bool
    ensures { result ≡ goes_with_of (cut_chain cut.now.most cut.now.routes.now.lists cut.now.at) node
        (pair_in cut.now.lookups.now.closed.model.now node) }
{
    match pair_of(cut.lookups, node) {
        Some(pair) => is_in_chain(cut, pair.pickup) || is_in_chain(cut, pair.delivery),
        None => is_in_chain(cut, node),
    }
}

// A list without the nodes that go with that chain.
fn without_chain(alloc: Global, cut: &CutOf<'_, '_, '_>, list: &[u32]) -> Result<Seq<u32>, NoMemory>
    ensures { IfOk result (λ left. left ≡ without_chain_of cut.now.lookups.now.closed.model.now
        (cut_chain cut.now.most cut.now.routes.now.lists cut.now.at) list.now) }
{
    let mut left = Seq::with_capacity(alloc, list.len())?;
    for &node in list {
        if !goes_with(cut, node) {
            left.push(node)?;
        }
    }
    Ok(left)
}

// The lists that a cut leaves. If the routes are open, those of other vehicles stay as they are, since a pair is in one
// list then.
fn lists_left(alloc: Global, cut: &CutOf<'_, '_, '_>) -> Result<Vec<Seq<u32>>, NoMemory>
    ensures { IfOk result (λ left. left.items ≡ left_by cut.now.lookups.now.closed.model.now cut.now.most
        cut.now.routes.now.lists cut.now.at) }
{
    let routes = cut.routes;
    let mut left = Vec::with_capacity(alloc, routes.vehicles() as usize)?;
    for v in 0..routes.vehicles() {
        let list = without_chain(alloc, cut, routes.list(v))?;
        left.push(list)?;
    }
    Ok(left)
}

/// Makes routes of the model those that a cut leaves. The chain is gone, and so is the other node of the pair of each
/// of its nodes.
pub(crate) fn leave(
    alloc: Global,
    cut: &CutOf<'_, '_, '_>,
    left: &mut Routes,
) -> Result<(), NoMemory>
    requires { AreRoutesOf cut.now.lookups.now.closed.model.now left.old }
    ensures lists { OnOk result (left.new.lists ≡ left_by cut.now.lookups.now.closed.model.now cut.now.most
        cut.now.routes.now.lists cut.now.at) }
    ensures of_model { AreRoutesOf cut.now.lookups.now.closed.model.now left.new }
{
    let lists = lists_left(alloc, cut)?;
    left.set_lists(&lists);
    Ok(())
}
