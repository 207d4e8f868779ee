//! What a move changes.

ghost use Rattle.std.specs.Prelude.{◌≡◌, ◌<◌, ◌≤◌, ℕ, true, false, IsTrue, List, [], ◌∷◌, length, IfSome, MatchOption};
ghost use Rattle.vr_model.specs.tables.Tables.{visits};
ghost use Rattle.vr_model.specs.tables.WellFormed.{IsWellFormed};
ghost use Rattle.vr_model.specs.moves.MoveTests.{is_move};
ghost use Rattle.vr_model.specs.declared.records.Model.{Model as Defined};
ghost use Rattle.vr_model.specs.declared.neighbours.Move.TheVariants.{Relocate, Exchange, Cross};
ghost use Rattle.vr_model.specs.declared.neighbours.Move.TheVariants.{PairInactive, RelocatePair};
ghost use Rattle.vr_routes.specs.Places.{AreCuts, AreNodeAndGap, AreTwoNodes};
ghost use Rattle.vr_routes.specs.Pieces.{changed, no_part, part_at, HasEnds, IsSplice};
ghost use Rattle.vr_routes.specs.Changes.{AreParts, IsChange, MayChange};

use crate::conditions::{is_move, pair_served, pair_together};
use crate::filling::fill;
use crate::node_row::Row;
use crate::pairs::{Served, Standing};
use crate::pieces::{Part, Piece, Splice};
use crate::routes::Routes;
use crate::seats::Seating;
use std::marker::Model;
use vr_model::{Closed, Model as RoutingModel, Move};

/// The lists after a move, as pieces of the lists before it: one or two parts, each a vehicle and its list.
#[derive(Drop)]
pub struct Change {
    first: Part,
    second: Part,
    has_second: bool,
}

impl Model for Change {
    ghost use Rattle.std.specs.Prelude.{List, [], ◌∷◌, cond};
    ghost use Rattle.vr_routes.specs.Pieces.{ListAfter};

    ghost Value = { List ListAfter };

    ghost view = { λ c. c.first ∷ cond c.has_second (c.second ∷ []) [] };
}

impl Change {
    /// A change to write over: vehicle 0 gets the empty list.
    pub fn blank() -> Change
        ensures { result ≡ no_part ∷ [] }
    {
        Change {
            first: Part::new(),
            second: Part::new(),
            has_second: false,
        }
    }

    /// The change that a move makes, `None` if it is no move of the lists. Tests alone ask it.
    pub fn of(model: &RoutingModel, routes: &Routes, mv: Move) -> Option<Change>
        requires well_formed { IsWellFormed model.now }
        requires of_model { routes.now.visits ≡ visits model.now }
        ensures answer { let is_one = is_move model.now routes.now.lists mv in
            MatchOption result (is_one ≡ false) (λ change. is_one ≡ true) }
        ensures change { IfSome result (IsChange model.now routes.now.lists mv) }
    {
        let mut change = Change::blank();
        if Change::of_into(model, routes, mv, &mut change) {
            Some(change)
        } else {
            None
        }
    }

    /// Writes the change that a move makes over another one, and answers whether it is a move of the lists. If it is
    /// none, the other one stays. Tests and benches ask it; searches, whose moves are listed as moves of the lists,
    /// call [`Change::write`].
    pub fn of_into(model: &RoutingModel, routes: &Routes, mv: Move, out: &mut Change) -> bool
        requires well_formed { IsWellFormed model.now }
        requires of_model { routes.now.visits ≡ visits model.now }
        ensures answer { result ≡ is_move model.now routes.now.lists mv }
        ensures change { IsTrue result → IsChange model.now routes.now.lists mv out.new }
        ensures stays { result ≡ false → out.new ≡ out.old }
    {
        if !is_move(model, routes, mv) {
            return false;
        }
        Change::write(model, routes, mv, out);
        true
    }

    /// Writes into `out` what `mv`, a move of the lists, changes. What `out` was before is written over.
    #[inline]
    pub fn write(model: &RoutingModel, routes: &Routes, mv: Move, out: &mut Change)
        requires well_formed { IsWellFormed model.now }
        requires is_one { is_move model.now routes.now.lists mv ≡ true }
        ensures { IsChange model.now routes.now.lists mv out.new }
    {
        out.has_second = false;
        match mv {
            Move::TwoOpt { v, a, b } => out.first.reverse(routes, v, a, b),
            Move::OrOpt { v, a, k, t } => out.first.move_chain(routes, v, a, k, t),
            Move::Relocate { v, a, w, t } => out.write_relocate(routes, v, a, w, t),
            Move::Exchange { v, a, w, b } => out.write_exchange(routes, v, a, w, b),
            Move::Cross { v, a, w, b } => out.write_cross(routes, v, a, w, b),
            Move::MakeInactive { v, a } => out.first.take_out(routes, v, a, 1),
            Move::MakeActive { u, w, t } => out.first.put(routes, w, t, 0, u),
            Move::SwapActive { v, a, u } => out.first.put(routes, v, a, 1, u),
            Move::PairActive { p, w, s, t } => {
                out.first
                    .put_pair(routes, w, s, t, *model.pairs.get(p as usize))
            }
            Move::PairInactive { p } => out.write_pair_inactive(Closed { model }, routes, p),
            Move::RelocatePair { p, w, s, t } => {
                out.write_relocate_pair(model, routes, p, w, s, t)
            }
        }
    }

    // The node at place `a` of `v` goes before place `t` of `w`, another vehicle.
    #[inline]
    fn write_relocate(&mut self, routes: &Routes, v: u32, a: u32, w: u32, t: u32)
        requires { AreNodeAndGap routes.now.lists v a w t }
        ensures { (model : Defined) → IsChange model routes.now.lists (Relocate v a w t) self.new }
    {
        self.has_second = true;
        self.first.take_out(routes, v, a, 1);
        self.second.put(routes, w, t, 0, routes.node_at(v, a));
    }

    // The nodes at place `a` of `v` and at place `b` of `w`, which may be one vehicle, change places.
    #[inline]
    fn write_exchange(&mut self, routes: &Routes, v: u32, a: u32, w: u32, b: u32)
        requires { AreTwoNodes routes.now.lists v a w b }
        ensures { (model : Defined) → is_move model routes.now.lists (Exchange v a w b) ≡ true
            → IsChange model routes.now.lists (Exchange v a w b) self.new }
    {
        if v == w {
            self.has_second = false;
            self.first.swap_two(routes, v, a, b);
            return;
        }
        self.has_second = true;
        self.first.put(routes, v, a, 1, routes.node_at(w, b));
        self.second.put(routes, w, b, 1, routes.node_at(v, a));
    }

    // The nodes of `v` before place `a` and those of `w` before place `b` change vehicles.
    #[inline]
    fn write_cross(&mut self, routes: &Routes, v: u32, a: u32, w: u32, b: u32)
        requires { AreCuts routes.now.lists v a w b }
        ensures { (model : Defined) → IsChange model routes.now.lists (Cross v a w b) self.new }
    {
        self.has_second = true;
        self.first.join(routes, v, a, w, b);
        self.second.join(routes, w, b, v, a);
    }

    // Pair `p` is taken out. Both its nodes are in one list, since the move is one of the lists.
    #[inline]
    fn write_pair_inactive(&mut self, closed: Closed<'_>, routes: &Routes, p: u32)
        requires is_one { is_move closed.model.now routes.now.lists (PairInactive p) ≡ true }
        ensures { IsChange closed.entry.model.now routes.now.lists (PairInactive p) self.new }
    {
        routes.know_once();
        match pair_together(closed.model, routes, p) {
            None => unreachable!(),
            Some(at) => {
                self.has_second = false;
                let on = Standing {
                    model: closed.model,
                    routes,
                    p,
                    at,
                };
                self.first.take_pair(on);
            }
        }
    }

    // Pair `p`, which is served since the move is one of the lists, is put into the list of `w`.
    #[inline]
    fn write_relocate_pair(
        &mut self,
        model: &RoutingModel,
        routes: &Routes,
        p: u32,
        w: u32,
        s: u32,
        t: u32,
    )
        requires is_one { is_move model.now routes.now.lists (RelocatePair p w s t) ≡ true }
        ensures { IsChange model.now routes.now.lists (RelocatePair p w s t) self.new }
    {
        match pair_served(model, routes, p) {
            None => unreachable!(),
            Some(at) => {
                let on = Standing {
                    model,
                    routes,
                    p,
                    at,
                };
                let served = Served { on };
                self.put_elsewhere(served, w, s, t)
            }
        }
    }

    // Puts a pair that is served into the list of `w`, which may be its own. Both places are places of what the list is
    // without the pair: its pickup goes before place `s`, and its delivery before place `t`.
    #[inline]
    fn put_elsewhere(&mut self, served: Served<'_, '_>, w: u32, s: u32, t: u32)
        requires is_one { is_move served.on.model.now served.on.routes.now.lists (RelocatePair served.on.p w s t)
            ≡ true }
        ensures { let on = served.entry.on in
            IsChange on.model.now on.routes.now.lists (RelocatePair on.p w s t) self.new }
    {
        let on = served.on;
        let at = on.at;
        let routes = on.routes;
        routes.know_once();
        let pair = *on.model.pairs.get(on.p as usize);
        if w == at.vehicle {
            self.has_second = false;
            self.first.move_pair(routes, at, s, t, pair);
            return;
        }
        self.has_second = true;
        self.first.take_pair(on);
        self.second.put_pair(routes, w, s, t, pair);
    }

    /// How many lists are changed.
    #[inline]
    pub fn parts(&self) -> usize
        ensures value { result ≡ length self.now }
        ensures some { 1 ≤ result }
        ensures few { result ≤ 2 }
    {
        if self.has_second { 2 } else { 1 }
    }

    // The part of a number.
    #[inline]
    fn part(&self, k: usize) -> &Part
        requires part { k < length self.now }
        ensures { result.now ≡ part_at self.now k }
    {
        if k == 0 { &self.first } else { &self.second }
    }

    /// The vehicle of part `k`.
    #[inline]
    pub fn vehicle(&self, k: usize) -> u32
        requires part { k < length self.now }
        ensures { result ≡ (part_at self.now k).vehicle }
    {
        let part = self.part(k);
        part.vehicle()
    }

    /// The pieces of part `k`, which joined are the list of its vehicle after the change.
    #[inline]
    pub fn pieces(&self, k: usize) -> &[Piece]
        requires part { k < length self.now }
        ensures value { result.now ≡ (part_at self.now k).pieces }
        ensures few { length result.now ≤ 8 }
    {
        let part = self.part(k);
        part.pieces()
    }

    /// The list of part `k` as a splice of the list that its vehicle had before, in any lists of which these are parts.
    #[inline]
    pub fn splice(&self, k: usize) -> Splice<'_>
        requires part { k < length self.now }
        requires ends { HasEnds (part_at self.now k) }
        ensures vehicle { result.vehicle ≡ (part_at self.now k).vehicle }
        ensures ends { (lists : List (List ℕ)) → AreParts lists self.now → let part = part_at self.now k in
            IsSplice lists part.vehicle part.pieces result.front result.behind result.middle.now }
    {
        let part = self.part(k);
        part.splice()
    }

    /// Gives the vehicles of the change their lists. These are first written over the two rows, since the pieces are
    /// nodes of the lists that they replace.
    pub(crate) fn rebuild(&self, seating: &mut Seating, first: &mut Row, second: &mut Row)
        requires { MayChange seating.old self.now }
        ensures lists { seating.new.lists ≡ changed seating.old.lists self.now }
        ensures nodes { seating.new.nodes ≡ seating.old.nodes }
    {
        if self.has_second {
            rebuild_two(seating, &self.first, &self.second, first, second);
        } else {
            rebuild_one(seating, &self.first, first);
        }
    }
}

// Gives the vehicle of a part its list.
fn rebuild_one(seating: &mut Seating, part: &Part, row: &mut Row)
    requires { MayChange seating.old (part.now ∷ []) }
    ensures lists { seating.new.lists ≡ changed seating.old.lists (part.now ∷ []) }
    ensures nodes { seating.new.nodes ≡ seating.old.nodes }
{
    seating.know_few();
    fill(seating, part.pieces(), row);
    seating.set_list(part.vehicle(), row.as_slice());
}

// Gives the vehicles of two parts their lists. Both are written before one is given: each may have nodes of the other.
fn rebuild_two(seating: &mut Seating, part: &Part, other: &Part, row: &mut Row, second: &mut Row)
    requires { MayChange seating.old (part.now ∷ other.now ∷ []) }
    ensures lists { seating.new.lists ≡ changed seating.old.lists (part.now ∷ other.now ∷ []) }
    ensures nodes { seating.new.nodes ≡ seating.old.nodes }
{
    seating.know_few();
    fill(seating, part.pieces(), row);
    fill(seating, other.pieces(), second);
    seating.set_two(
        part.vehicle(),
        row.as_slice(),
        other.vehicle(),
        second.as_slice(),
    );
}
