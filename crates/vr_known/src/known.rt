//! Which moves are known to be refused.

ghost use Rattle.std.specs.Prelude.{◌≡◌, ℕ, ◌⊎◌, ◌<◌, false, IsTrue};
ghost use Rattle.vr_known.specs.Blocks.{AreSettled, IsApart, Learns, covers, first_of, is_behind, is_kind_of};
ghost use Rattle.vr_known.specs.Blocks.{is_known, is_later};
ghost use Rattle.vr_known.specs.Locality.{HasNoGlobalSpans};
ghost use Rattle.vr_model.specs.moves.MoveTests.{is_move};
ghost use Rattle.vr_model.specs.moves.Kinds.{kind_of, rows_of};
ghost use Rattle.vr_model.specs.tables.WellFormed.{IsWellFormed};
ghost use Rattle.vr_model.specs.declared.neighbours.Move.{Move as Moved};
ghost use Rattle.vr_model.specs.declared.neighbours.Neighbourhood.{Neighbourhood as Kind};

use crate::Touched;
use crate::stamps::Stamps;
use std::marker::Model;
use vr_model::{Closed, Model as RoutingModel, Move, Neighbourhood};
use vr_routes::Routes;

/// What is known of moves: those of some rows and vehicles were refused, and nothing on which they depend has changed
/// since. They depend on the lists of their vehicles, and, if they change activity, on which visits are active. It
/// takes no memory.
#[derive(Drop)]
pub struct Known {
    // none if nothing is ever learned
    stamps: Option<Stamps>,
}

impl Model for Known {
    ghost use Rattle.vr_known.specs.Blocks.{Memory, memory_of};

    ghost Value = { Memory };

    ghost view = { λ k. memory_of k.stamps };
}

impl Known {
    /// Nothing is known, and nothing is ever learned. So it is of models that pay for global spans. Iterators of moves
    /// use it too, and so pass over none.
    #[inline]
    pub fn none() -> Known
        ensures none { (kind : Kind) (v w : ℕ) → is_known result kind v w ≡ false }
        ensures learns { Learns result → ⊥ }
    {
        Known { stamps: None }
    }

    /// Nothing is known yet of the moves of a model. Something is learned if nothing is paid for global spans. Only
    /// then does what a move makes depend on nothing but the lists of its vehicles, and, if it changes activity, the
    /// active visits.
    pub fn of(model: &RoutingModel) -> Known
        ensures none { (kind : Kind) (v w : ℕ) → is_known result kind v w ≡ false }
        ensures learns { Learns result → HasNoGlobalSpans model.now }
    {
        if !has_no_global_spans(model) {
            return Known::none();
        }
        Known {
            stamps: Some(Stamps::new()),
        }
    }

    /// Whether no move of a neighbourhood, of a row and of the vehicle that it names last is acceptable, as far as is
    /// known. Which number is the row:
    ///
    /// - the first vehicle, if moves change one list or two that they name and no activity;
    /// - the pair, if it is put elsewhere or taken out;
    /// - else 0.
    ///
    /// A move that names no vehicle counts as one that names 0.
    #[inline(always)]
    pub fn has(&self, neighbourhood: Neighbourhood, v: u32, w: u32) -> bool
        requires first { v < rows_of neighbourhood }
        requires second { w < 100 }
        ensures { result ≡ is_known self.now neighbourhood v w }
    {
        match &self.stamps {
            Some(stamps) => stamps.has(neighbourhood, v, w),
            None => false,
        }
    }

    /// A scan of the moves of some neighbourhoods has refused all moves before this one. The rows that lie before it as
    /// a whole are learned; its own row is not. The caller keeps that they were refused (`AreRefused` of
    /// `Progress::advance`).
    pub fn note(&mut self, neighbourhoods: &[Neighbourhood], mv: Move)
        requires first { first_of mv < rows_of (kind_of mv) }
        ensures learned { (k : Kind) (u w : ℕ) → u < rows_of k → IsTrue (is_known self.new k u w)
            → IsTrue (is_known self.old k u w) ⊎ IsTrue (is_behind neighbourhoods.now k u mv) }
        ensures learns { Learns self.new → Learns self.old }
    {
        if let Some(stamps) = &mut self.stamps {
            stamps.note(neighbourhoods, mv);
        }
    }

    /// All moves of some neighbourhoods were refused.
    pub fn note_all(&mut self, neighbourhoods: &[Neighbourhood])
        ensures learned { (k : Kind) (u w : ℕ) → u < rows_of k → IsTrue (is_known self.new k u w)
            → IsTrue (is_known self.old k u w) ⊎ IsTrue (is_kind_of neighbourhoods.now k) }
        ensures learns { Learns self.new → Learns self.old }
    {
        if let Some(stamps) = &mut self.stamps {
            stamps.note_all(neighbourhoods);
        }
    }

    /// A move was made, and `routes` are those after it. Only moves of which this is so stay known:
    ///
    /// - they name no vehicle whose list it changed;
    /// - they put elsewhere or take out no pair that such a vehicle serves;
    /// - they change no activity, if it did.
    pub fn change(&mut self, model: &RoutingModel, routes: &Routes, mv: Move, touched: Touched)
        requires well_formed { IsWellFormed model.now }
        requires first { touched.first < 100 }
        requires second { touched.second < 100 }
        ensures fewer { (k : Kind) (u w : ℕ) → IsTrue (is_known self.new k u w) → IsTrue (is_known self.old k u w) }
        ensures apart { (m : Moved) → IsTrue (is_move model.now routes.now.lists m) → IsTrue (covers self.new m)
            → IsApart model.now routes.now.lists mv touched.first touched.second m }
        ensures known { (k : Kind) (u w : ℕ) → IsTrue (is_known self.new k u w) → Learns self.new }
        ensures learns { Learns self.new → Learns self.old }
    {
        if let Some(stamps) = &mut self.stamps {
            stamps.change(Closed { model }, routes, mv, touched);
        }
    }

    /// Something else than its list changed of a vehicle: penalties of its arcs. Only moves that do not name it stay
    /// known. Moves of pairs that it serves need not name it. [`Known::settle`] forgets those; guided search calls it
    /// after it has raised the penalties of each vehicle.
    pub fn forget(&mut self, v: u32)
        requires vehicle { v < 100 }
        ensures fewer { (k : Kind) (u w : ℕ) → IsTrue (is_known self.new k u w) → IsTrue (is_known self.old k u w) }
        ensures earlier { (k : Kind) (u w : ℕ) → IsTrue (is_later self.new k u w) → IsTrue (is_later self.old k u w) }
        ensures changes { (k : Kind) (u : ℕ) → is_later self.new k u v ≡ false }
        ensures known { (k : Kind) (u w : ℕ) → IsTrue (is_known self.new k u w) → Learns self.new }
        ensures learns { Learns self.new → Learns self.old }
    {
        if let Some(stamps) = &mut self.stamps {
            stamps.forget(v);
            stamps.go_on();
        }
    }

    /// Forgets refused moves that put a pair elsewhere or take it out, if the vehicle that serves the pair changed
    /// since. A vehicle changes with its list, or with penalties of its arcs.
    pub fn settle(&mut self, model: &RoutingModel, routes: &Routes)
        requires well_formed { IsWellFormed model.now }
        ensures fewer { (k : Kind) (u w : ℕ) → IsTrue (is_known self.new k u w) → IsTrue (is_known self.old k u w) }
        ensures earlier { (k : Kind) (u w : ℕ) → IsTrue (is_later self.new k u w) → IsTrue (is_later self.old k u w) }
        ensures settled { AreSettled model.now routes.now.lists self.new }
        ensures learns { Learns self.new → Learns self.old }
    {
        if let Some(stamps) = &mut self.stamps {
            stamps.settle(Closed { model }, routes);
        }
    }
}

// Whether no dimension has a cost of its global span.
fn has_no_global_spans(model: &RoutingModel) -> bool
    ensures { IsTrue result → HasNoGlobalSpans model.now }
{
    for d in 0..model.dimensions.len() {
        if model.dimensions.get(d).global_span_cost != 0 {
            return false;
        }
    }
    true
}
