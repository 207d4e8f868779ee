//! Laws over the fault of lists and over the lists with which a search begins. A call has no code: its contract is the
//! law. Nothing calls them: a proof that needs a law names the proof of it, in `proofs/`.

ghost use Rattle.vr_given.specs.Laws.{BeginIsValid, FaultlessIsValid, ValidIsBegun};

/// Lists of a model have no fault exactly if they are valid.
pub fn faultless_is_valid()
    ensures { FaultlessIsValid }
{}

/// The lists with which the model's own search begins are valid.
pub fn begin_is_valid()
    ensures { BeginIsValid }
{}

/// A search begins with given valid lists as they are.
pub fn valid_is_begun()
    ensures { ValidIsBegun }
{}
