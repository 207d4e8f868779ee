//! What a search gives.

ghost use Rattle.vr_app.specs.Endings.{IsBestOfOutcome};
ghost use Rattle.vr_app.specs.Improved as improved;

use vr_model::{End, Report};
use vr_routes::Routes;

/// The best routes of a search, and how it went.
#[derive(Drop)]
pub struct Best {
    /// Routes of the cheapest lists that it had, the first solution among them; of equally cheap ones the first.
    pub routes: Routes,
    /// How many moves or cuts it tried, how many solutions it found and why it ended.
    pub report: Report,
}

/// What is given if there is no search, since the words or the model ask for none: the first solution is the best.
pub fn untried(first: Routes) -> Best
    ensures { IsBestOfOutcome first.visits (improved.untried first.lists) result }
{
    let report = Report {
        tries: 0,
        solutions: 1,
        end: End::First,
    };
    Best {
        routes: first,
        report,
    }
}
