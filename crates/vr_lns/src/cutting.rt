//! Cuts: each is tried by rebuilding what it leaves.

ghost use Rattle.std.specs.Prelude.{◌≡◌, ◌+◌, ◌<◌, ◌≤◌, IfOk, IsTrue, OnOk, length};
ghost use Rattle.vr_model.specs.routes.Costs.{cost};
ghost use Rattle.vr_model.specs.routes.Routes.{route};
ghost use Rattle.vr_model.specs.routes.Rules.{is_valid};
ghost use Rattle.vr_lns.specs.Cuts.{accepted_by};
ghost use Rattle.vr_lns.specs.Standing.{is_taken_over, lists_after, HoldValid};

use crate::Rebuild;
use crate::cutter::Cutter;
use std::alloc::Global;
use std::marker::Model;
use vr_model::NoMemory;
use vr_plan::Lookups;
use vr_routes::Routes;

/// A cut: the vehicle whose list a chain of visits is taken out of, and the place in it at which the chain begins. The
/// chain has as many visits as one may have, or those up to the end of the list. For example, it may have two, and the
/// list is 3 7 4 9. A cut at place 1 takes 7 and 4, and one at place 3 takes 9.
#[derive(Clone, Copy)]
pub struct Cut {
    pub vehicle: u32,
    pub place: u32,
}

/// What cuts are made and tried by. Contracts see the model, and how many visits the chain of a cut has at most.
#[derive(Drop)]
pub(crate) struct Cutting<'m> {
    cutter: Cutter<'m>,
    // what a cut leaves, and what that is rebuilt to; it is written over
    after: Routes,
}

impl<'m> Model for Cutting<'m> {
    ghost use Rattle.vr_lns.specs.Cutters.{Cutter, AreRoutesOf};

    ghost Value = { Cutter };

    ghost view = { λ c. c.cutter };

    ghost invariant = { λ c. AreRoutesOf c.cutter.model c.after };
}

impl<'m> Cutting<'m> {
    /// What cuts of a model with chains of at most `most` visits are tried by. The only refusal is want of memory.
    pub(crate) fn open(
        alloc: Global,
        lookups: &Lookups<'m>,
        most: u32,
    ) -> Result<Cutting<'m>, NoMemory>
        requires few { most ≤ 100 }
        ensures { IfOk result (λ cutting. cutting ≡ record { model = lookups.now.closed.model.now; most = most }) }
    {
        let after = Routes::empty(alloc, lookups.closed.model)?;
        Ok(Cutting {
            cutter: Cutter::open(alloc, lookups, most)?,
            after,
        })
    }

    /// What valid routes cost.
    pub(crate) fn total(&mut self, routes: &Routes) -> Result<i64, NoMemory>
        requires valid { IsTrue (is_valid self.old.model routes.now.lists) }
        ensures value { IfOk result (λ total. total ≡ cost self.old.model routes.now.lists) }
        ensures cutter { self.new ≡ self.old }
    {
        self.cutter.total(routes)
    }

    /// Lets what rebuilds routes know the model. The only refusal is want of memory.
    pub(crate) fn know<R: Rebuild>(&self, rebuild: &mut R) -> Result<(), NoMemory>
        ensures knows { OnOk result (R.knows rebuild.new self.now.model) }
        ensures made { R.made rebuild.new ≡ R.made rebuild.old }
    {
        self.cutter.know(rebuild)
    }

    /// Tries a cut, and takes its result over if the cut is acceptable. Answers whether it is.
    pub(crate) fn try_cut<R: Rebuild>(
        &mut self,
        rebuild: &mut R,
        routes: &mut Routes,
        total: &mut i64,
        at: Cut,
    ) -> Result<bool, NoMemory>
        requires knows { R.knows rebuild.old self.old.model }
        requires holds { HoldValid self.old.model routes.old total.old }
        requires vehicle { at.vehicle < length routes.old.lists }
        requires place { at.place < length (route routes.old.lists at.vehicle) }
        ensures taken { IfOk result (λ taken. taken
            ≡ is_taken_over (accepted_by self.old.model self.old.most routes.old.lists at)) }
        ensures lists { OnOk result (routes.new.lists
            ≡ lists_after routes.old.lists (accepted_by self.old.model self.old.most routes.old.lists at)) }
        ensures holds { HoldValid self.old.model routes.new total.new }
        ensures cutter { self.new ≡ self.old }
        ensures knows { OnOk result (R.knows rebuild.new self.old.model) }
        ensures made { R.made rebuild.new ≤ R.made rebuild.old + 1 }
    {
        let there = self
            .cutter
            .write_result(rebuild, routes, at, &mut self.after)?;
        if !there {
            return Ok(false);
        }
        self.cutter.take(&self.after, routes, total)
    }
}
