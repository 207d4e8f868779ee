//! What each word reads: an input, of which more may be asked than that it is read.

ghost use Rattle.std.specs.Prelude.{IfOk, IsTrue};
ghost use Rattle.serde_json.specs.View.{view};
ghost use Rattle.vr_json.specs.Reading.{Answers};
ghost use Rattle.vr_model.specs.routes.Routes.{are_lists};
ghost use Rattle.vr_model.specs.tables.WellFormed.{IsWellFormed};
ghost use Rattle.vr_given.specs.Givens.{given_of};
ghost use Rattle.vr_given.specs.GivenLaws.{IsGiven};
ghost use Rattle.vr_refine.specs.Inputs as inputs;

use serde_json::Value;
use std::alloc::Global;
use vr_given::{Given, read_given};
use vr_json::{Cause, Path, ReadFail, settle};
use vr_model::{Model, Seq};

/// A model and lists of it that are priced.
#[derive(Drop)]
pub struct Priced {
    pub model: Model,
    pub lists: Seq<Seq<u32>>,
}

// What is priced of an input that is read. Refused with the cause `Absent`, at the field `routes`, if there are none.
#[tactic(auto, unfolding(vr_json::specs::Reading::at_path))]
fn priced_from(alloc: Global, given: Given, path: &Path) -> Result<Priced, ReadFail>
    ensures { Answers result (inputs.priced_from path.now given.model given.routes) }
{
    let Given { model, routes, .. } = given;
    match routes {
        Some(lists) => Ok(Priced { model, lists }),
        None => settle(alloc, Err(Cause::Absent), path.field("routes")),
    }
}

/// What is priced, with a well-formed model and lists of it; the first fault of the input, or that it has no routes. It
/// fails too if memory runs out. The value is let go.
pub fn read_priced(alloc: Global, value: Value) -> Result<Priced, ReadFail>
    ensures found { Answers result (inputs.priced_of (view value)) }
    ensures well_formed { IfOk result (λ it. IsWellFormed it.model) }
    ensures are_lists { IfOk result (λ it. IsTrue (are_lists it.model it.lists)) }
{
    let given = read_given(alloc, &value)?;
    let path = Path::root(alloc);
    priced_from(alloc, given, &path)
}

/// What a search begins with: a well-formed model, and beside it lists of it and what is asked of a search, if they are
/// there. Else the first fault of the input. It fails too if memory runs out. The value is let go.
pub fn read_begun(alloc: Global, value: Value) -> Result<Given, ReadFail>
    ensures found { Answers result (given_of (view value)) }
    ensures sound { IfOk result IsGiven }
{
    read_given(alloc, &value)
}
