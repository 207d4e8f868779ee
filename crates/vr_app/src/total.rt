//! What routes cost in all, over what was looked up of their model.

ghost use Rattle.std.specs.Prelude.{◌≡◌, IfOk, IsTrue};
ghost use Rattle.vr_model.specs.routes.Costs.{cost};
ghost use Rattle.vr_model.specs.routes.Rules.{is_valid};

use std::alloc::Global;
use vr_model::NoMemory;
use vr_plan::Lookups;
use vr_routes::Routes;
use vr_rules::Rules;

/// What valid routes cost. `NoMemory` if out of memory.
pub(crate) fn total_over(
    alloc: Global,
    lookups: &Lookups<'_>,
    routes: &Routes,
) -> Result<i64, NoMemory>
    requires { IsTrue (is_valid lookups.now.closed.model.now routes.now.lists) }
    ensures { IfOk result (λ total. total ≡ cost lookups.now.closed.model.now routes.now.lists) }
{
    let mut rules = Rules::over(alloc, lookups)?;
    rules.total(routes)
}
