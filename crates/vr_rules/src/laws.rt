//! Laws over the definitions. A call has no code: its contract is the law.

ghost use Rattle.vr_rules.specs.Openness.{OpennessIsLocal};

/// Openness is local. If lists are open and one of them gets nodes, the lists stay open exactly if two things hold:
/// - This list is open for its vehicle.
/// - No group gets more active nodes than it may have.
///
/// No code calls it: the proofs of insertion and of cheapest arcs rest on the law.
pub fn openness_is_local()
    ensures { OpennessIsLocal }
{}
