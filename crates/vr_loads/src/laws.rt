//! Laws of loads. A call has no code: its contract is the law.

ghost use Rattle.vr_loads.specs.Loads.{LoadsDecide};

/// In a load, a vehicle can drive a list exactly if it can carry what it takes.
pub fn loads_decide()
    ensures { LoadsDecide }
{}
