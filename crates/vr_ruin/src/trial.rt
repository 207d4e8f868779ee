//! Routes on trial: what a step makes of the routes before it.

ghost use Rattle.std.specs.Prelude.{◌≡◌, ◌<◌, ◌≤◌, ◌≤ℤ◌, ◌^◌, ℕ, false, not, pos, IfOk, IfSome, IsTrue, OnErr, OnOk};
ghost use Rattle.std.specs.Prelude.{length};
ghost use Rattle.std.specs.Option.{option_map};
ghost use Rattle.vr_model.specs.routes.Costs.{cost};
ghost use Rattle.vr_model.specs.routes.Routes.{holds, is_active, is_empty, route};
ghost use Rattle.vr_model.specs.tables.Tables.{visits};
ghost use Rattle.vr_model.specs.tables.WellFormed.{IsWellFormed};
ghost use Rattle.vr_routes.specs.Seats.{IsOnce};
ghost use Rattle.vr_model.specs.moves.Moves.{with_route};
ghost use Rattle.vr_model.specs.first.Items.{first_node};
ghost use Rattle.vr_model.specs.first.CheapestInsertion.{inserted};
ghost use Rattle.vr_rules.specs.Placing.{fits_beside, item_nodes, AreBuilt, IsItem};
ghost use Rattle.vr_strings.specs.Strings.{list_after_string, IsStringIn};
ghost use Rattle.vr_ruin.specs.Makings.{MayBeMade};
ghost use Rattle.vr_model.specs.declared.records.Model.{Model as Defined};
ghost use Rattle.vr_ruin.specs.Cheapest.{fixed_beside as fixed_beside_of, IsOfferWithin};
ghost use Rattle.vr_ruin.specs.Known.{AreKnownRoutes};
ghost use Rattle.vr_ruin.specs.Lacking.{moving_cost};
ghost use Rattle.vr_ruin.specs.Offers.{offer as offer_of, paid_cost, price_of};
ghost use Rattle.vr_ruin.specs.Payments.{IsCost, IsPrice};
ghost use Rattle.vr_ruin.specs.Placings.{insertion_of};
ghost use Rattle.vr_ruin.specs.Timeless.{is_timeless, AddsToArcs, IsPaid};

use crate::asking::{Asker, VehicleList};
use crate::known::KnownRoute;
use crate::paying::{moving_of, paid_of, total_of};
use crate::placing::{Offer, write_placed};
use std::alloc::Global;
use std::marker::Model;
use vr_lists::NodeTables;
use vr_model::{NoMemory, Seq};
use vr_plan::Lookups;
use vr_routes::{Routes, Row};
use vr_rules::{Item, empty_lists};
use vr_strings::{StringPlaces, write_left};

/// Open routes that a step makes, and what asks about them. Contracts see the model and the lists.
#[derive(Drop)]
pub(crate) struct Trial<'m> {
    alloc: Global,
    asker: Asker<'m>,
    routes: Routes,
    // of each vehicle, a list whose rows are known: the one of which an offer was last asked
    known: Vec<KnownRoute>,
    // what an offer would make of them
    spare: Routes,
    // a list that is tried
    row: Box<Row>,
    longer: Seq<u32>,
    // all lists, while one of them changes
    room: Vec<Seq<u32>>,
}

impl<'m> Model for Trial<'m> {
    ghost use Rattle.vr_ruin.specs.Trials.{OnTrial, AreOnTrial};

    ghost Value = { OnTrial };

    ghost view = { λ t. record { model = t.asker; lists = t.routes.lists } };

    ghost invariant = { λ t. AreOnTrial t.asker t.routes t.known.items t.spare t.room.items };
}

// The list of vehicle `w`, if that of vehicle `v` is another one.
fn list_beside<'r>(routes: &'r Routes, v: u32, list: &'r [u32], w: u32) -> &'r [u32]
    requires { w < length routes.now.lists }
    ensures { result.now ≡ route (with_route routes.now.lists v list.now) w }
{
    if w == v { list } else { routes.list(w) }
}

// Writes a list over another.
fn write_list(list: &[u32], out: &mut Seq<u32>) -> Result<(), NoMemory>
    ensures { OnOk result (out.new ≡ list.now) }
{
    out.truncate(0);
    out.extend_from_slice(list)?;
    Ok(())
}

// Writes the lists of routes over others, with another one for vehicle `v`.
fn write_lists(
    routes: &Routes,
    v: u32,
    list: &[u32],
    lists: &mut [Seq<u32>],
) -> Result<(), NoMemory>
    requires vehicle { v < length routes.now.lists }
    requires many { length lists.old ≡ length routes.now.lists }
    ensures many { length lists.new ≡ length lists.old }
    ensures lists { OnOk result (lists.new ≡ with_route routes.now.lists v list.now) }
{
    for w in 0..routes.vehicles() {
        write_list(list_beside(routes, v, list, w), &mut lists[w as usize])?;
    }
    Ok(())
}

// Gives vehicle `v` of routes another list, by way of room for all lists. If memory runs out the routes are as
// before.
fn set_list(
    routes: &mut Routes,
    v: u32,
    list: &[u32],
    room: &mut [Seq<u32>],
) -> Result<(), NoMemory>
    requires room { length room.old ≡ length routes.old.lists }
    requires vehicle { v < length routes.old.lists }
    requires visits { (node : ℕ) → IsTrue (is_active (with_route routes.old.lists v list.now) node)
        → IsTrue (holds routes.old.visits node) }
    requires once { IsOnce (with_route routes.old.lists v list.now) }
    ensures lists { OnOk result (routes.new.lists ≡ with_route routes.old.lists v list.now) }
    ensures as_before { OnErr result (routes.new.lists ≡ routes.old.lists) }
    ensures visits { routes.new.visits ≡ routes.old.visits }
    ensures room { length room.new ≡ length room.old }
{
    write_lists(routes, v, list, room)?;
    routes.set_lists(room);
    Ok(())
}

// For each vehicle the empty list, of which nothing is known.
fn known_routes(
    alloc: Global,
    vehicles: usize,
    dimensions: usize,
) -> Result<Vec<KnownRoute>, NoMemory>
    ensures { IfOk result (λ routes. (model : Defined) → length model.vehicles ≡ vehicles
        → length model.dimensions ≡ dimensions → AreKnownRoutes model routes.items) }
{
    let mut routes = Vec::with_capacity(alloc, vehicles)?;
    for _v in 0..vehicles {
        routes.push(KnownRoute::open(alloc, dimensions)?)?;
    }
    Ok(routes)
}

// Takes a string out of the list of vehicle `v`, and with each of its visits the other node of its pair. It does so if
// what is left is open. If memory runs out the routes are as before.
fn cut_list(
    asker: &mut Asker<'_>,
    routes: &mut Routes,
    v: u32,
    string: StringPlaces,
    row: &mut Row,
    room: &mut [Seq<u32>],
) -> Result<(), NoMemory>
    requires room { length room.old ≡ length routes.old.lists }
    requires visits { routes.old.visits ≡ visits asker.old }
    requires built { AreBuilt asker.old routes.old.lists }
    requires vehicle { v < length routes.old.lists }
    requires string { IsStringIn (length (route routes.old.lists v)) string }
    ensures model { asker.new ≡ asker.old }
    ensures lists { OnOk result (routes.new.lists ≡ with_route routes.old.lists v
        (list_after_string asker.old v (route routes.old.lists v) string)) }
    ensures built { AreBuilt asker.old routes.new.lists }
    ensures visits { routes.new.visits ≡ routes.old.visits }
    ensures room { length room.new ≡ length room.old }
{
    write_left(asker.nodes(), routes, v, string, row);
    if !asker.is_open(v, row.as_slice())? {
        return Ok(());
    }
    set_list(routes, v, row.as_slice(), room)
}

impl<'m> Trial<'m> {
    /// Routes with empty lists. It fails only if memory runs out, as each call does.
    pub(crate) fn open(alloc: Global, lookups: &Lookups<'m>) -> Result<Trial<'m>, NoMemory>
        ensures { IfOk result (λ trial. trial.model ≡ lookups.now.closed.model.now) }
    {
        let model = lookups.closed.model;
        let routes = Routes::empty(alloc, model)?;
        let spare = Routes::empty(alloc, model)?;
        let known = known_routes(alloc, model.vehicles.len(), model.dimensions.len())?;
        let room = empty_lists(alloc, model)?;
        let row = Box::new(alloc, Row::new())?;
        Ok(Trial {
            alloc,
            asker: Asker::open(alloc, lookups)?,
            routes,
            known,
            spare,
            row,
            longer: Seq::new(alloc),
            room,
        })
    }

    /// Takes the lists of open routes of the model over.
    pub(crate) fn begin(&mut self, routes: &Routes)
        requires visits { routes.now.visits ≡ visits self.old.model }
        requires built { AreBuilt self.old.model routes.now.lists }
        ensures model { self.new.model ≡ self.old.model }
        ensures lists { self.new.lists ≡ routes.now.lists }
    {
        self.routes.assign(routes);
    }

    /// Cuts the list of vehicle `v`: takes a string out, and with each of its visits the other node of its pair. If
    /// what is left is not open, the list stays whole.
    pub(crate) fn cut(&mut self, v: u32, string: StringPlaces) -> Result<(), NoMemory>
        requires vehicle { v < length self.old.lists }
        requires string { IsStringIn (length (route self.old.lists v)) string }
        ensures model { self.new.model ≡ self.old.model }
        ensures lists { OnOk result (self.new.lists ≡ with_route self.old.lists v
            (list_after_string self.old.model v (route self.old.lists v) string)) }
    {
        cut_list(
            &mut self.asker,
            &mut self.routes,
            v,
            string,
            &mut self.row,
            &mut self.room,
        )
    }

    /// The offer of vehicle `v` for an item that is in no list, `None` if its list is open with the item at no places.
    pub(crate) fn offer(&mut self, v: u32, item: Item) -> Result<Option<Offer>, NoMemory>
        requires vehicle { v < length self.old.lists }
        requires item { IsItem self.old.model item }
        requires inactive { is_active self.old.lists (first_node (item_nodes item)) ≡ false }
        ensures offer { IfOk result (λ offer. option_map insertion_of offer
            ≡ offer_of self.old.model self.old.lists (item_nodes item) v) }
        ensures adds { IfOk result (λ offer. IfSome offer (AddsToArcs self.old.model self.old.lists)) }
        ensures trial { self.new ≡ self.old }
    {
        self.offer_within(v, item, None)
    }

    /// The same, `None` also if it adds more than a limit: then the list need not be looked through.
    pub(crate) fn offer_within(
        &mut self,
        v: u32,
        item: Item,
        limit: Option<i64>,
    ) -> Result<Option<Offer>, NoMemory>
        requires vehicle { v < length self.old.lists }
        requires item { IsItem self.old.model item }
        requires inactive { is_active self.old.lists (first_node (item_nodes item)) ≡ false }
        ensures offer { IfOk result (IsOfferWithin self.old.model self.old.lists (item_nodes item) v limit) }
        ensures trial { self.new ≡ self.old }
    {
        let nodes = self.routes.list(v);
        let known = &mut self.known[v as usize];
        known.take(
            self.alloc,
            self.asker.lookups(),
            v,
            nodes,
            self.asker.loads(),
        )?;
        let list = VehicleList {
            vehicle: v,
            nodes,
            known,
        };
        self.asker.best(list, item, limit)
    }

    /// What the routes cost without penalties, `None` if no schedules cost anything: prices do not ask it then.
    pub(crate) fn paid(&mut self) -> Result<Option<i64>, NoMemory>
        ensures paid { IfOk result (IsPaid self.old.model self.old.lists) }
        ensures trial { self.new ≡ self.old }
    {
        if self.asker.is_timeless() {
            return Ok(None);
        }
        let paid = self.paid_by_schedules()?;
        Ok(Some(paid))
    }

    // What the routes cost without penalties, by their schedules.
    fn paid_by_schedules(&mut self) -> Result<i64, NoMemory>
        ensures value { IfOk result (λ paid. paid ≡ paid_cost self.old.model self.old.lists) }
        ensures range { IfOk result IsCost }
        ensures trial { self.new ≡ self.old }
    {
        let parts = self.asker.cost(&self.routes)?;
        Ok(paid_of(&parts))
    }

    /// What the routes cost in all.
    pub(crate) fn total(&mut self) -> Result<i64, NoMemory>
        ensures value { IfOk result (λ total. total ≡ cost self.old.model self.old.lists) }
        ensures range { IfOk result IsCost }
        ensures trial { self.new ≡ self.old }
    {
        let parts = self.asker.cost(&self.routes)?;
        Ok(total_of(&parts))
    }

    /// What the routes cost without fixed costs and penalties.
    pub(crate) fn moving(&mut self) -> Result<u64, NoMemory>
        ensures value { IfOk result (λ moving. moving ≡ moving_cost self.old.model self.old.lists) }
        ensures trial { self.new ≡ self.old }
    {
        let parts = self.asker.cost(&self.routes)?;
        Ok(moving_of(&parts))
    }

    /// How much more the routes cost after an offer, without penalties, if they cost `paid` before it.
    pub(crate) fn price(&mut self, offer: Offer, paid: Option<i64>) -> Result<i64, NoMemory>
        requires offer { MayBeMade self.old.model self.old.lists offer }
        requires adds { AddsToArcs self.old.model self.old.lists offer }
        requires paid { IsPaid self.old.model self.old.lists paid }
        ensures price { IfOk result (λ price. price ≡ price_of self.old.model self.old.lists (insertion_of offer)) }
        ensures price_range { IfOk result IsPrice }
        ensures trial { self.new ≡ self.old }
    {
        match paid {
            None => Ok(self.price_by_arcs(offer)),
            Some(paid) => self.price_by_schedules(offer, paid),
        }
    }

    /// What the use of vehicle `v` costs beside the routes: nothing if it is used already.
    pub(crate) fn fixed_beside(&self, v: u32) -> i64
        requires { v < length self.now.lists }
        ensures value { result ≡ fixed_beside_of self.now.model self.now.lists v }
        ensures low { pos 0 ≤ℤ result }
        ensures high { result ≤ℤ pos (2 ^ 40) }
    {
        self.know();
        if self.is_used(v) {
            return 0;
        }
        self.asker.fixed(v)
    }

    /// Whether no schedules cost anything.
    pub(crate) fn is_timeless(&self) -> bool
        ensures { result ≡ is_timeless self.now.model }
    {
        self.asker.is_timeless()
    }

    /// How much more the routes cost after an offer, without penalties, if no schedules cost anything.
    pub(crate) fn price_by_arcs(&self, offer: Offer) -> i64
        requires offer { MayBeMade self.now.model self.now.lists offer }
        requires adds { AddsToArcs self.now.model self.now.lists offer }
        requires timeless { IsTrue (is_timeless self.now.model) }
        ensures price { result ≡ price_of self.now.model self.now.lists (insertion_of offer) }
        ensures price_range { IsPrice result }
    {
        self.know();
        offer.increase + self.fixed_beside(offer.vehicle)
    }

    // How much more they cost after an offer, by the schedules of all routes.
    fn price_by_schedules(&mut self, offer: Offer, paid: i64) -> Result<i64, NoMemory>
        requires offer { MayBeMade self.old.model self.old.lists offer }
        requires paid { paid ≡ paid_cost self.old.model self.old.lists }
        requires range { IsCost paid }
        ensures price { IfOk result (λ price. price ≡ price_of self.old.model self.old.lists (insertion_of offer)) }
        ensures price_range { IfOk result IsPrice }
        ensures trial { self.new ≡ self.old }
    {
        write_placed(
            self.routes.list(offer.vehicle),
            offer.placing,
            &mut self.longer,
        )?;
        self.spare.assign(&self.routes);
        set_list(
            &mut self.spare,
            offer.vehicle,
            self.longer.as_slice(),
            &mut self.room,
        )?;
        let parts = self.asker.cost(&self.spare)?;
        Ok(paid_of(&parts) - paid)
    }

    /// Makes the insertion of an offer.
    pub(crate) fn make(&mut self, offer: Offer) -> Result<(), NoMemory>
        requires offer { MayBeMade self.old.model self.old.lists offer }
        ensures lists { OnOk result (self.new.lists ≡ inserted self.old.lists (insertion_of offer)) }
        ensures model { self.new.model ≡ self.old.model }
    {
        write_placed(
            self.routes.list(offer.vehicle),
            offer.placing,
            &mut self.longer,
        )?;
        set_list(
            &mut self.routes,
            offer.vehicle,
            self.longer.as_slice(),
            &mut self.room,
        )
    }

    /// The routes.
    pub(crate) fn routes(&self) -> &Routes
        ensures lists { result.now.lists ≡ self.now.lists }
        ensures visits { result.now.visits ≡ visits self.now.model }
        ensures built { AreBuilt self.now.model self.now.lists }
    {
        let _asker = &self.asker;
        &self.routes
    }

    /// The model is well formed, and the lists are open. It does nothing.
    pub(crate) fn know(&self)
        ensures well_formed { IsWellFormed self.now.model }
        ensures built { AreBuilt self.now.model self.now.lists }
    {
        self.asker.know();
    }

    /// What was looked up of the nodes of the model.
    pub(crate) fn nodes(&self) -> &NodeTables<'m>
        ensures { result.now ≡ self.now.model }
    {
        self.asker.nodes()
    }

    /// Whether no group would get too many nodes from an item.
    pub(crate) fn has_room(&self, item: Item) -> Result<bool, NoMemory>
        ensures { IfOk result (λ room. room ≡ fits_beside self.now.model self.now.lists (item_nodes item)) }
    {
        self.asker.has_room(self.alloc, &self.routes, item)
    }

    /// How many vehicles there are.
    pub(crate) fn vehicles(&self) -> u32
        ensures value { result ≡ length self.now.lists }
        ensures few { result ≤ 100 }
    {
        self.routes.vehicles()
    }

    /// Whether vehicle `v` is used: its list is not empty.
    pub(crate) fn is_used(&self, v: u32) -> bool
        requires { v < length self.now.lists }
        ensures { result ≡ not (is_empty (route self.now.lists v)) }
    {
        !self.routes.list(v).is_empty()
    }
}
