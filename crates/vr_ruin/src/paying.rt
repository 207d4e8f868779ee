//! What open routes cost in all, and without penalties.

ghost use Rattle.std.specs.Prelude.{◌≡◌, ◌-ℤ◌, nat_abs};
ghost use Rattle.vr_model.specs.routes.Costs.{sum_of};
ghost use Rattle.vr_rules.specs.Totals.{AreInRange};
ghost use Rattle.vr_ruin.specs.Payments.{IsCost};

use vr_model::Parts;

/// The sum of the parts of a cost.
pub(crate) fn total_of(parts: &Parts) -> i64
    requires { AreInRange parts.now }
    ensures value { result ≡ sum_of parts.now }
    ensures range { IsCost result }
{
    parts.arcs + parts.fixed + parts.global + parts.penalty + parts.soft + parts.span
}

/// The sum of the parts of a cost but the penalties.
pub(crate) fn paid_of(parts: &Parts) -> i64
    requires { AreInRange parts.now }
    ensures value { result ≡ (sum_of parts.now -ℤ parts.now.penalty) }
    ensures range { IsCost result }
{
    parts.arcs + parts.fixed + parts.global + parts.soft + parts.span
}

/// A cost without fixed costs and penalties, as a number.
pub(crate) fn moving_of(parts: &Parts) -> u64
    requires { AreInRange parts.now }
    ensures { result ≡ nat_abs ((sum_of parts.now -ℤ parts.now.fixed) -ℤ parts.now.penalty) }
{
    let moving = total_of(parts) - parts.fixed - parts.penalty;
    moving.unsigned_abs()
}
