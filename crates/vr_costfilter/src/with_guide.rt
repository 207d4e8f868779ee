//! A guide with the visits that its vehicle gets: a list, a chain, a piece or several.
//!
//! What goes along them is asked with both, so that it knows that they are at most 1000 visits. Their floors are found
//! backwards, from the next step on: the least cumul of each from which that of the next one can be met. `steps` goes
//! back along a whole list that is committed and along what a change puts in. `changed_list` goes back along all pieces
//! of a changed list. `kept` hands in the lists.

ghost use Rattle.std.proofs.Props.{props};
ghost use Rattle.vr_routes.specs.Pieces.{joined, nodes_of};
ghost use Rattle.vr_costfilter.specs.GuideRuns.{CanWalkBack, HasWalkedBack};
ghost use Rattle.vr_routes.specs.Pieces.{IsWithin-prop};
ghost use Rattle.vr_costfilter.specs.FewVisits.{in_order, AreFewVisits, ArePiecesOf, IsPieceOf};

use crate::guides::Guide;
use crate::trails::{Step, Trail};
use vr_earliest::node_in;
use vr_routes::{Piece, Routes};

/// A list of the vehicle of a guide.
#[derive(Drop)]
pub struct ListWithGuide<'a, 'm> {
    pub guide: &'a Guide<'m>,
    pub list: &'a [u32],
    /// It has at most 1000 visits.
    pub ghost sound: { AreFewVisits guide.now.model.now list.now },
}

/// The nodes of a chain, or of the chain backwards, that the vehicle of a guide gets.
#[derive(Drop)]
pub struct ChainWithGuide<'a, 'm> {
    pub guide: &'a Guide<'m>,
    pub nodes: &'a [u32],
    pub reversed: bool,
    /// They are at most 1000 visits.
    pub ghost sound: { AreFewVisits guide.now.model.now (in_order reversed nodes.now) },
}

/// A piece that the vehicle of a guide gets.
#[derive(Drop)]
pub struct PieceWithGuide<'a, 'm> {
    pub guide: &'a Guide<'m>,
    pub routes: &'a Routes,
    pub piece: Piece,
    /// Its nodes are at most 1000 visits.
    pub ghost sound: { IsPieceOf guide.now.model.now routes.now.lists piece } by { Prim.hlevel (props, IsWithin-prop) },
}

/// Pieces that the vehicle of a guide gets.
#[derive(Drop)]
pub struct PiecesWithGuide<'a, 'm> {
    pub guide: &'a Guide<'m>,
    pub routes: &'a Routes,
    pub pieces: &'a [Piece],
    /// Their nodes are at most 1000 visits.
    pub ghost sound: { ArePiecesOf guide.now.model.now routes.now.lists pieces.now } by { Prim.hlevel
        (props, IsWithin-prop) },
}

impl<'a, 'm> ChainWithGuide<'a, 'm> {
    /// Back along them, which come before the next step: puts the steps to them on the trail, the last one first. Gives
    /// the first one, or the next step if there is none. Nothing exactly if some stop allows no cumul from its floor
    /// on.
    #[inline]
    pub fn back_along(&self, next: Step, trail: &mut Trail) -> Option<Step>
        requires { CanWalkBack self.now.guide.now (in_order self.now.reversed self.now.nodes.now) next
            trail.old.steps.items }
        ensures { HasWalkedBack self.now.guide.now (in_order self.now.reversed self.now.nodes.now) next
            trail.old.steps.items trail.new.steps.items result }
    {
        let mut first = next;
        for k in 0..self.nodes.len() {
            let node = node_in(self.nodes, self.reversed, self.nodes.len() - 1 - k);
            match self.guide.step_back(node, first, trail) {
                Some(step) => first = step,
                None => return None,
            }
        }
        Some(first)
    }
}

impl<'a, 'm> PieceWithGuide<'a, 'm> {
    /// Back along its nodes, which come before the next step: puts the steps to them on the trail, the last one first.
    /// Gives the first one, or the next step if there is none. Nothing exactly if some stop allows no cumul from its
    /// floor on.
    #[inline]
    pub fn back_along(&self, next: Step, trail: &mut Trail) -> Option<Step>
        requires { CanWalkBack self.now.guide.now (nodes_of self.now.routes.now.lists self.now.piece) next
            trail.old.steps.items }
        ensures { HasWalkedBack self.now.guide.now (nodes_of self.now.routes.now.lists self.now.piece) next
            trail.old.steps.items trail.new.steps.items result }
    {
        match self.piece {
            Piece::Node { node } => self.guide.step_back(node, next, trail),
            Piece::Chain {
                vehicle,
                from,
                to,
                reversed,
            } => {
                let list = self.routes.list(vehicle);
                let chain = ChainWithGuide {
                    guide: self.guide,
                    nodes: &list[from as usize..to as usize],
                    reversed,
                };
                chain.back_along(next, trail)
            }
        }
    }
}

impl<'a, 'm> PiecesWithGuide<'a, 'm> {
    /// Back along them, which come before the next step: puts the steps to them on the trail, the last one first. Gives
    /// the first one, or the next step if there is none. Nothing exactly if some stop allows no cumul from its floor
    /// on.
    #[inline]
    pub fn back_along(&self, next: Step, trail: &mut Trail) -> Option<Step>
        requires { CanWalkBack self.now.guide.now (joined self.now.routes.now.lists self.now.pieces.now) next
            trail.old.steps.items }
        ensures { HasWalkedBack self.now.guide.now (joined self.now.routes.now.lists self.now.pieces.now) next
            trail.old.steps.items trail.new.steps.items result }
    {
        let mut first = next;
        for k in 0..self.pieces.len() {
            let one = PieceWithGuide {
                guide: self.guide,
                routes: self.routes,
                piece: self.pieces[self.pieces.len() - 1 - k],
            };
            match one.back_along(first, trail) {
                Some(step) => first = step,
                None => return None,
            }
        }
        Some(first)
    }
}
