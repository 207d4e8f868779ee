//! Laws of policies. A call has no code: its contract is the law.

ghost use Rattle.vr_pathfilters.specs.Turns.{TurnsArePolicies};
ghost use Rattle.vr_pathfilters.specs.Replaced.{TurnsAreBetween};

/// A list that serves its pairs keeps a policy exactly if its pairs come in turn.
pub fn turns_are_policies()
    ensures { TurnsArePolicies }
{}

/// In a list whose pairs come in turn, a stretch is replaced by other nodes. Then all pairs come in turn exactly if
/// those of the new nodes do.
pub fn turns_are_between()
    ensures { TurnsAreBetween }
{}
