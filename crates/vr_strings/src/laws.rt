//! What follows from the definitions of this crate, as contracts without code. Nothing calls them: proofs cite the
//! lemmas of the same names.

ghost use Rattle.vr_strings.specs.DrawLaws.{DrawnStringsAreThere, EachItemHasOneTurn, SortingIsStable};

/// Each string that is drawn lies in its list, and contains the place for which it is drawn.
pub fn drawn_strings_are_there()
    ensures { DrawnStringsAreThere }
{}

/// A list that is sorted by keys has its entries, in order, and those of equal keys as they were.
pub fn sorting_is_stable()
    ensures { SortingIsStable }
{}

/// Each item in no list has one turn, and no other item has any.
pub fn each_item_has_one_turn()
    ensures { EachItemHasOneTurn }
{}
