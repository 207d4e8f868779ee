//! What a cut is rebuilt to, and whether that is better.

ghost use Rattle.std.specs.Prelude.{◌≡◌, ◌+◌, ◌<◌, ◌≤◌, IfOk, IsTrue, OnOk, Some, length};
ghost use Rattle.vr_model.specs.routes.Costs.{cost};
ghost use Rattle.vr_model.specs.routes.Routes.{route};
ghost use Rattle.vr_model.specs.routes.Rules.{is_valid};
ghost use Rattle.vr_model.specs.tables.Tables.{visits};
ghost use Rattle.vr_rules.specs.Placing.{AreBuilt};
ghost use Rattle.vr_lns.specs.Cutters.{result_in, AreRoutesOf};
ghost use Rattle.vr_lns.specs.Cuts.{result_of, where_better};
ghost use Rattle.vr_lns.specs.Standing.{is_taken_over, lists_after, HoldValid};

use crate::Rebuild;
use crate::cutting::Cut;
use crate::leaving::{CutOf, leave};
use std::alloc::Global;
use std::marker::Model;
use vr_model::NoMemory;
use vr_plan::Lookups;
use vr_routes::Routes;
use vr_rules::Rules;

/// What cuts are made by, and their results judged. Contracts see the model, and how many visits the chain of a cut has
/// at most.
#[derive(Drop)]
pub(crate) struct Cutter<'m> {
    alloc: Global,
    most: u32,
    lookups: Lookups<'m>,
    rules: Rules<'m>,
}

impl<'m> Model for Cutter<'m> {
    ghost use Rattle.vr_lns.specs.Cutters.{Cutter, IsCutter};

    ghost Value = { Cutter };

    ghost view = { λ c. record { model = c.lookups.closed.model.now; most = c.most } };

    ghost invariant = { λ c. IsCutter c.lookups.closed.model.now c.rules c.most };
}

impl<'m> Cutter<'m> {
    /// The only refusal is want of memory.
    pub(crate) fn open(
        alloc: Global,
        lookups: &Lookups<'m>,
        most: u32,
    ) -> Result<Cutter<'m>, NoMemory>
        requires few { most ≤ 100 }
        ensures { IfOk result (λ cutter. cutter ≡ record { model = lookups.now.closed.model.now; most = most }) }
    {
        Ok(Cutter {
            alloc,
            most,
            lookups: lookups.share()?,
            rules: Rules::over(alloc, lookups)?,
        })
    }

    /// What valid routes cost.
    pub(crate) fn total(&mut self, routes: &Routes) -> Result<i64, NoMemory>
        requires valid { IsTrue (is_valid self.old.model routes.now.lists) }
        ensures value { IfOk result (λ total. total ≡ cost self.old.model routes.now.lists) }
        ensures cutter { self.new ≡ self.old }
    {
        self.rules.total(routes)
    }

    /// Lets what rebuilds routes know the model. The only refusal is want of memory.
    pub(crate) fn know<R: Rebuild>(&self, rebuild: &mut R) -> Result<(), NoMemory>
        ensures knows { OnOk result (R.knows rebuild.new self.now.model) }
        ensures made { R.made rebuild.new ≡ R.made rebuild.old }
    {
        rebuild.know(&self.lookups)
    }

    /// Makes routes of the model the result of a cut: what it leaves, rebuilt. Answers whether there is one. There is
    /// one exactly if what is left is open. A list that loses visits need not be: an arc may take longer than the way
    /// over a visit. If there is no result, the routes are what is left.
    pub(crate) fn write_result<R: Rebuild>(
        &mut self,
        rebuild: &mut R,
        routes: &Routes,
        at: Cut,
        after: &mut Routes,
    ) -> Result<bool, NoMemory>
        requires knows { R.knows rebuild.old self.old.model }
        requires built { AreBuilt self.old.model routes.now.lists }
        requires vehicle { at.vehicle < length routes.now.lists }
        requires place { at.place < length (route routes.now.lists at.vehicle) }
        requires of_model { AreRoutesOf self.old.model after.old }
        ensures lists { IfOk result (λ there. result_in there after.new.lists
            ≡ result_of self.old.model self.old.most routes.now.lists at) }
        ensures built { IfOk result (λ there. IsTrue there → AreBuilt self.old.model after.new.lists) }
        ensures of_model { AreRoutesOf self.old.model after.new }
        ensures cutter { self.new ≡ self.old }
        ensures knows { OnOk result (R.knows rebuild.new self.old.model) }
        ensures made { R.made rebuild.new ≤ R.made rebuild.old + 1 }
    {
        let cut = CutOf {
            lookups: &self.lookups,
            routes,
            at,
            most: self.most,
        };
        leave(self.alloc, &cut, after)?;
        if !self.rules.open_beside(routes, after)? {
            return Ok(false);
        }
        rebuild.rebuild_known(&self.lookups, after)?;
        Ok(true)
    }

    /// Takes the lists of a result over, and their cost as `total`, if they are valid and cost less than `total`.
    /// Answers whether it does. The result is open, so it is valid if nothing is missing.
    pub(crate) fn take(
        &mut self,
        after: &Routes,
        routes: &mut Routes,
        total: &mut i64,
    ) -> Result<bool, NoMemory>
        requires holds { HoldValid self.old.model routes.old total.old }
        requires built { AreBuilt self.old.model after.now.lists }
        requires visits { after.now.visits ≡ visits self.old.model }
        ensures taken { IfOk result (λ taken. taken
            ≡ is_taken_over (where_better self.old.model routes.old.lists (Some after.now.lists))) }
        ensures lists { OnOk result (routes.new.lists
            ≡ lists_after routes.old.lists (where_better self.old.model routes.old.lists (Some after.now.lists))) }
        ensures holds { HoldValid self.old.model routes.new total.new }
        ensures cutter { self.new ≡ self.old }
    {
        if !self.rules.valid_where_open(after)? {
            return Ok(false);
        }
        let less = self.rules.total(after)?;
        if less >= *total {
            return Ok(false);
        }
        routes.assign(after);
        *total = less;
        Ok(true)
    }
}
