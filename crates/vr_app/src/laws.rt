//! Laws that hold between what the program writes and what it reads. A call has no code: its contract is the law.
//! Nothing calls them: a proof that needs a law names the proof of it.

ghost use Rattle.vr_app.specs.ImportLaws.{ImportedTreesAreModels};
ghost use Rattle.vr_app.specs.Printing.{PrintedMeets};

/// The finding of what is printed of valid lists is that it meets all rules, with the cost of the lists.
pub fn printed_meets()
    ensures { PrintedMeets }
{}

/// What is imported from a file, with 1 to 100 vehicles, is read as a well-formed model in each mode that reads one.
pub fn imported_trees_are_models()
    ensures { ImportedTreesAreModels }
{}
