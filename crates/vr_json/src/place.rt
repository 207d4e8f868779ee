//! A place below a path, whose text is made only when it is asked for.

ghost use Rattle.std.specs.Prelude.{◌≡◌, IfOk};
ghost use Rattle.vr_json.specs.Places.{place_path};

use crate::Path;
use vr_model::NoMemory;

/// The last step to a place.
#[derive(Clone, Copy)]
pub enum Step<'a> {
    /// The place is the path itself.
    Here,
    /// The field of this key.
    Field(&'a str),
    /// The entry of this number, from 0.
    Entry(usize),
}

/// A place: a path and at most one more step. It holds no memory of its own, so readers pass places on. Those of arrays
/// and objects make the path of one, for what is below it. That of a text (`TextOf`) makes it in any case, and the
/// others for a fault alone.
#[derive(Clone, Copy)]
pub struct Place<'a> {
    pub parent: &'a Path,
    pub step: Step<'a>,
}

impl<'a> Place<'a> {
    /// The path of the place.
    pub fn path(self) -> Result<Path, NoMemory>
        ensures { IfOk result (λ p. p ≡ place_path self.entry) }
    {
        match self.step {
            Step::Here => self.parent.copy(),
            Step::Field(key) => self.parent.name(key),
            Step::Entry(k) => self.parent.item(k),
        }
    }
}
