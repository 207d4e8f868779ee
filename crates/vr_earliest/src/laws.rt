//! The law that what is said of lists are bounds. A call has no code: its contract is the law.

ghost use Rattle.vr_earliest.specs.Laws.{ChosenIsNoEarlier};

/// The chosen schedule of a list that is not empty, under the rule of its vehicle, ends no earlier than its earliest
/// end. Its span is no less than its least one. No code calls this law. That the cost terms of `vr_costfilter` add no
/// less than these bounds say rests on it.
pub fn chosen_is_no_earlier()
    ensures { ChosenIsNoEarlier }
{}
