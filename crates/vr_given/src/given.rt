//! The table of an input: a model, the routes that are given with it, and a wish.

ghost use Rattle.std.specs.Prelude.{◌≡◌, IfOk, codes};
ghost use Rattle.serde_json.specs.View.{view};
ghost use Rattle.vr_json.specs.Reading.{Answers, maybe as may_have};
ghost use Rattle.vr_model.specs.routes.Routes as routes;
ghost use Rattle.vr_read.specs.Models.{read_model as model_at};
ghost use Rattle.vr_given.specs.GivenLaws.{IsGiven};
ghost use Rattle.vr_given.specs.Givens as givens;

use crate::wishes::{Wish, WishTable};
use serde_json::Value;
use std::alloc::Global;
use vr_json::{Array, Cause, Datum, Fields, Object, Path, ReadFail, Reader};
use vr_model::limits::MOST_NODES;
use vr_model::{Model, Seq, Vehicle};
use vr_read::{Visit, read_model};

/// What an input gives.
#[derive(Drop)]
pub struct Given {
    pub model: Model,
    /// The visits of each vehicle in order, without its start and end.
    pub routes: Option<Seq<Seq<u32>>>,
    /// What is asked of a refining search, `None` if none is asked for.
    pub wish: Option<Wish>,
}

/// Reads a model in a field.
#[derive(Clone, Copy)]
pub struct ModelField;

impl Reader for ModelField {
    type Item = Model;

    ghost reads = { λ it earlier path d. model_at path d };

    fn read(&self, _earlier: &[Self::Item], datum: Datum<'_, '_>) -> Result<Self::Item, ReadFail> {
        let path = datum.place.path()?;
        read_model(datum.alloc, datum.value, &path)
    }
}

/// Reads a visit of a route, which is in no earlier route, and not earlier in its own.
#[derive(Clone, Copy)]
pub struct RouteVisit<'a> {
    pub visit: Visit<'a>,
    /// The routes before its own.
    pub routes: &'a [Seq<u32>],
}

/// Reads the route of a vehicle.
#[derive(Clone, Copy)]
pub struct RouteVisits<'a> {
    pub visit: Visit<'a>,
}

// Whether a node is in a list.
fn holds(list: &[u32], node: u32) -> bool
    ensures { result ≡ routes.holds list.now node }
{
    list.iter().any(|&other| node == other)
}

// Whether a node is in some list.
fn is_active(lists: &[Seq<u32>], node: u32) -> bool
    ensures { result ≡ routes.is_active lists.now node }
{
    lists.iter().any(|list| holds(list.as_slice(), node))
}

#[tactic(auto, unfolding(vr_json::specs::Reading::and_then, crate::specs::Givens::route_visit))]
impl Reader for RouteVisit<'_> {
    type Item = u32;

    ghost reads = { λ it earlier path d.
        givens.route_visit it.visit.nodes it.visit.vehicles.now it.routes.now earlier path d };

    fn read(&self, earlier: &[Self::Item], datum: Datum<'_, '_>) -> Result<Self::Item, ReadFail> {
        let node = self.visit.read(&[], datum)?;
        let repeated = is_active(self.routes, node) || holds(earlier, node);
        datum.refuse_if(repeated, Cause::Repeated)?;
        Ok(node)
    }
}

impl Reader for RouteVisits<'_> {
    type Item = Seq<u32>;

    ghost reads = { λ it earlier path d.
        givens.route_visits it.visit.nodes it.visit.vehicles.now earlier path d };

    fn read(&self, earlier: &[Self::Item], datum: Datum<'_, '_>) -> Result<Self::Item, ReadFail> {
        let visits = Array {
            lo: 0,
            hi: MOST_NODES as usize,
            entry: RouteVisit {
                visit: self.visit,
                routes: earlier,
            },
        };
        visits.read(&[], datum)
    }
}

// The routes beside a model, if there are any: one for each vehicle.
fn read_routes(fields: Fields<'_, '_>, model: &Model) -> Result<Option<Seq<Seq<u32>>>, ReadFail>
    ensures { Answers result (may_have (codes "routes") (givens.given_routes model.now)
        fields.entry.path.now (view fields.entry.value.now)) }
{
    let visit = Visit {
        nodes: model.nodes,
        vehicles: model.vehicles.as_slice(),
    };
    let fleet = model.vehicles.len();
    let table = Array {
        lo: fleet,
        hi: fleet,
        entry: RouteVisits { visit },
    };
    fields.maybe("routes", &table)
}

// What these fields give.
fn read_fields(fields: Fields<'_, '_>) -> Result<Given, ReadFail>
    ensures found { Answers result (givens.given_at fields.entry.path.now (view fields.entry.value.now)) }
    ensures sound { IfOk result IsGiven }
{
    let model = fields.required("model", &ModelField)?;
    let routes = read_routes(fields, &model)?;
    let wish = fields.maybe("refine", &Object(WishTable))?;
    fields.known(&["model", "routes", "refine"])?;
    Ok(Given {
        model,
        routes,
        wish,
    })
}

/// What an input gives: its model, which is well formed, and routes that are lists of the model.
///
/// Refused with the first fault, in this order:
///
/// 1. a fault of the field `model`, as `vr_read::read_model` says;
/// 2. of `routes`, an array with a route for each vehicle (`WrongLength`). Each entry of a route is a node of the model
///    (`OutOfRange`) that is a visit (`NotAVisit`) and in no route twice (`Repeated`).
/// 3. of `refine`;
/// 4. a field that is none of these three (`UnknownKey`).
///
/// `NoMemory` if there is none.
pub fn read_given(alloc: Global, value: &Value) -> Result<Given, ReadFail>
    ensures found { Answers result (givens.given_of (view value.now)) }
    ensures sound { IfOk result IsGiven }
{
    let path = Path::root(alloc);
    read_fields(Fields {
        alloc,
        value,
        path: &path,
    })
}
