//! The trait of what rebuilds routes.

ghost use Rattle.std.specs.Prelude.{◌≡◌, ◌+◌, ◌≤◌, ℕ, IsTrue, IfOk, OnErr, OnOk, length};
ghost use Rattle.vr_model.specs.first.CheapestInsertion.{rebuilt};
ghost use Rattle.vr_model.specs.first.Items.{items};
ghost use Rattle.vr_model.specs.routes.Routes.{are_lists};
ghost use Rattle.vr_model.specs.routes.Rules.{is_open};
ghost use Rattle.vr_model.specs.tables.Tables.{visits};
ghost use Rattle.vr_model.specs.tables.WellFormed.{IsWellFormed};
ghost use Rattle.vr_model.specs.declared.records.Model.{Model as RoutingModel};
ghost use Rattle.vr_rules.specs.Placing.{AreBuilt};

use vr_model::{Model, NoMemory};
use vr_plan::Lookups;
use vr_routes::Routes;

/// Rebuilds open routes. It may keep from call to call what it knows of a model and of lists; its answers do not depend
/// on that. Who asks again and again lets it know the model once, and then asks for that model alone.
pub trait Rebuild {
    /// A number that rises by at most one when routes are rebuilt: by it a search says how often it rebuilds. That of
    /// `vr_app` stays 0; tests count.
    ghost made: { Self → ℕ };

    /// What it keeps is of this model.
    ghost knows: { Self → RoutingModel → Type 0 };

    /// The routes at which parallel cheapest insertion ends when it begins with these open routes. It inserts as long
    /// as an item may be inserted into some list so that the lists stay open. Each time it makes the insertion of the
    /// least class. Of those it makes the one that adds least to the arc costs, and of those the first by item, vehicle
    /// and places.
    ///
    /// No search calls this: it calls `rebuild_known`, which a test makes of this. The only refusal is want of memory.
    fn rebuild(&mut self, model: &Model, routes: &Routes) -> Result<Routes, NoMemory>
        requires well_formed { IsWellFormed model.now }
        requires lists { IsTrue (are_lists model.now routes.now.lists) }
        requires open_lists { IsTrue (is_open model.now routes.now.lists) }
        ensures lists { IfOk result (λ after. after.lists
            ≡ rebuilt model.now (length (items model.now)) routes.now.lists) }
        ensures visits { IfOk result (λ after. after.visits ≡ visits model.now) }
        ensures built { IfOk result (λ after. AreBuilt model.now after.lists) }
        ensures made { made self.new ≤ made self.old + 1 };

    /// Looks up what it keeps of a model. The only refusal is want of memory.
    fn know(&mut self, lookups: &Lookups<'_>) -> Result<(), NoMemory>
        ensures knows { OnOk result (knows self.new lookups.now.closed.model.now) }
        ensures made { made self.new ≡ made self.old };

    /// Makes open routes those that `rebuild` gives, of the model that it knows. What it found of lists in the call
    /// before it may keep for lists that are the same.
    ///
    /// The only refusal is want of memory. The routes are then as before, and nothing is said of what it keeps.
    fn rebuild_known(&mut self, lookups: &Lookups<'_>, routes: &mut Routes) -> Result<(), NoMemory>
        requires knows { knows self.old lookups.now.closed.model.now }
        requires of_model { routes.old.visits ≡ visits lookups.now.closed.model.now }
        requires lists { IsTrue (are_lists lookups.now.closed.model.now routes.old.lists) }
        requires open_lists { IsTrue (is_open lookups.now.closed.model.now routes.old.lists) }
        ensures lists { OnOk result (routes.new.lists ≡ rebuilt lookups.now.closed.model.now
            (length (items lookups.now.closed.model.now)) routes.old.lists) }
        ensures built { OnOk result (AreBuilt lookups.now.closed.model.now routes.new.lists) }
        ensures as_before { OnErr result (routes.new.lists ≡ routes.old.lists) }
        ensures visits { routes.new.visits ≡ routes.old.visits }
        ensures knows { OnOk result (knows self.new lookups.now.closed.model.now) }
        ensures made { made self.new ≤ made self.old + 1 };
}
