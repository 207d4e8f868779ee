//! The best lists so far.

ghost use Rattle.std.specs.Prelude.{◌≡◌, length};
ghost use Rattle.vr_descent.specs.Incumbents.{kept};

use crate::Progress;
use vr_routes::Routes;

/// The first routes of the least cost so far.
#[derive(Drop)]
pub struct Incumbent {
    pub routes: Routes,
    pub cost: i64,
}

impl Incumbent {
    /// Keeps the routes of a search if they cost less. Takes no memory.
    pub fn offer(&mut self, routes: &Routes, at: &Progress)
        requires visits { self.old.routes.visits ≡ routes.now.visits }
        requires many { length self.old.routes.lists ≡ length routes.now.lists }
        ensures { self.new ≡ kept self.old routes.now at.now.cost }
    {
        if at.cost < self.cost {
            self.routes.assign(routes);
            self.cost = at.cost;
        }
    }
}
