//! What is looked up once of the nodes of a model: the group and the pair of each, and the vehicles that may visit it.

ghost use Rattle.std.specs.Prelude.{◌≡◌, ℕ, ◌<◌, Bool, false, All, IfOk, cond, length, replicate, slice_index_or};
ghost use Rattle.std.specs.List.{list_all};
ghost use Rattle.vr_model.specs.first.Items.{pair_of as pair_of_node};
ghost use Rattle.vr_model.specs.routes.Rules.{allows_vehicle as allows_vehicle_of, is_grouped as is_grouped_of};
ghost use Rattle.vr_model.specs.tables.WellFormed.{IsWellFormed};
ghost use Rattle.vr_lists.specs.Nodes.{group_number as group_number_of, pair_number, row_number as row_number_of};
ghost use Rattle.vr_lists.specs.Nodes.{AreMarksOf, AreNumbers, AreNumbersBy, AreRowMarks, AreWritten};

use std::alloc::Global;
use std::marker::Model;
use vr_model::{Allowed, Closed, Model as RoutingModel, NoMemory, Pair, Seq};

/// The group and the pair of each node of a model, and the vehicles that may visit it. They are looked up once in
/// groups, pairs and rows of allowed vehicles. Contracts see the model. An answer about a node takes no memory, and no
/// longer in a large model than in a small one.
#[derive(Drop)]
pub struct NodeTables<'m> {
    model: &'m RoutingModel,
    // for each node the number of its group
    groups: Seq<u32>,
    // for each node the number of its pair
    pairs: Seq<u32>,
    // for each node the number of its row of allowed vehicles
    rows: Seq<u32>,
    // for each row whether it has each vehicle
    marks: Seq<Seq<bool>>,
}

impl<'m> Model for NodeTables<'m> {
    ghost use Rattle.vr_model.specs.declared.records.Model.{Model as Defined};
    ghost use Rattle.vr_lists.specs.Nodes.{AreNodeTables};

    ghost Value = { Defined };

    ghost view = { λ tables. tables.model.now };

    ghost invariant = { λ tables. AreNodeTables tables.model.now tables.groups tables.pairs tables.rows
        tables.marks };
}

impl<'m> NodeTables<'m> {
    /// The tables of a model. It fails only if it is out of memory.
    pub fn open(alloc: Global, model: &'m RoutingModel) -> Result<NodeTables<'m>, NoMemory>
        requires { IsWellFormed model.now }
        ensures { IfOk result (λ tables. tables ≡ model.now) }
    {
        let closed = Closed { model };
        Ok(NodeTables {
            model,
            groups: group_numbers(alloc, model)?,
            pairs: pair_numbers(alloc, closed)?,
            rows: row_numbers(alloc, closed)?,
            marks: row_marks(alloc, closed)?,
        })
    }

    /// The model. It takes no memory.
    pub fn model(&self) -> &'m RoutingModel
        ensures model { result.now ≡ self.now }
        ensures well_formed { IsWellFormed self.now }
    {
        // what holds of the model is known if the tables are read too
        let _ = &self.groups;
        self.model
    }

    /// The number of the group of a node, that of all groups if it is in none.
    pub fn group_number(&self, node: u32) -> u32
        ensures { result ≡ group_number_of self.now node }
    {
        number_or(&self.groups, node, self.model.groups.len() as u32)
    }

    /// Whether a node is in a group.
    pub fn is_grouped(&self, node: u32) -> bool
        ensures { result ≡ is_grouped_of self.now node }
    {
        (self.group_number(node) as usize) < self.model.groups.len()
    }

    // The number of the pair of a node, that of all pairs if it is in none.
    fn pair_number(&self, node: u32) -> u32
        ensures { result ≡ pair_number self.now node }
    {
        number_or(&self.pairs, node, self.model.pairs.len() as u32)
    }

    /// The pair that a node is in.
    pub fn pair_of(&self, node: u32) -> Option<Pair>
        ensures { result ≡ pair_of_node self.now node }
    {
        let k = self.pair_number(node) as usize;
        if k < self.model.pairs.len() {
            return Some(*self.model.pairs.get(k));
        }
        None
    }

    // The number of the row of a node, that of all rows if it has none.
    fn row_number(&self, node: u32) -> u32
        ensures { result ≡ row_number_of self.now node }
    {
        number_or(&self.rows, node, self.model.allowed.len() as u32)
    }

    /// Whether vehicle `v` may visit a node (`SetAllowedVehiclesForIndex` in OR-Tools); any may if it has no row.
    pub fn allows_vehicle(&self, v: u32, node: u32) -> bool
        ensures { result ≡ allows_vehicle_of self.now v node }
    {
        let row = self.row_number(node) as usize;
        if row < self.marks.len() {
            return is_marked(self.marks.get(row), v);
        }
        true
    }

    /// Whether vehicle `v` may visit each node of a list.
    pub fn allows_each(&self, v: u32, list: &[u32]) -> bool
        ensures { result ≡ list_all (allows_vehicle_of self.now v) list.now }
    {
        list.iter().all(|&node| self.allows_vehicle(v, node))
    }
}

// The number at a place, or another if there is none.
fn number_or(numbers: &Seq<u32>, place: u32, none: u32) -> u32
    ensures { result ≡ slice_index_or numbers.now place none }
{
    if (place as usize) < numbers.len() {
        return *numbers.get(place as usize);
    }
    none
}

// The mark at a place, if there is one.
fn is_marked(marks: &Seq<bool>, place: u32) -> bool
    ensures { result ≡ slice_index_or marks.now place false }
{
    if (place as usize) < marks.len() {
        return *marks.get(place as usize);
    }
    false
}

// Writes a value at each of some places.
fn write_each<T: Copy>(values: &mut [T], places: &[u32], value: T)
    requires { All (λ place. place < length values.old) places.now }
    ensures count { length values.new ≡ length values.old }
    ensures each { AreWritten values.old places.now value values.new }
{
    for &place in places {
        values[place as usize] = value;
    }
}

// A place for a number of each node.
fn no_numbers(alloc: Global, model: &RoutingModel) -> Result<Vec<u32>, NoMemory>
    ensures { IfOk result (λ numbers. length numbers.items ≡ model.now.nodes) }
{
    let mut numbers = Vec::new(alloc);
    numbers.resize(model.nodes as usize, 0)?;
    Ok(numbers)
}

// Writes over the numbers of the groups of all nodes, from the last group to the first. The first group with a node
// counts then, as in the definition. A model has no node in two, nor in two pairs, nor with two rows.
fn write_groups(closed: Closed<'_>, numbers: &mut [u32])
    requires long { length numbers.old ≡ closed.model.now.nodes }
    ensures { AreNumbers closed.entry.model.now numbers.new }
{
    let mut g = closed.model.groups.len();
    numbers.fill(g as u32);
    while g > 0 {
        g -= 1;
        write_each(
            numbers,
            closed.model.groups.get(g).nodes.as_slice(),
            g as u32,
        );
    }
}

// For each node of a model the number of its row of allowed vehicles.
fn row_numbers(alloc: Global, closed: Closed<'_>) -> Result<Seq<u32>, NoMemory>
    ensures { IfOk result (AreNumbersBy (row_number_of closed.entry.model.now) closed.entry.model.now.nodes) }
{
    let mut numbers = no_numbers(alloc, closed.model)?;
    write_rows(closed, &mut numbers);
    Ok(Seq::from(numbers))
}

// Writes over the numbers of the rows of all nodes, from the last row to the first.
fn write_rows(closed: Closed<'_>, numbers: &mut [u32])
    requires long { length numbers.old ≡ closed.model.now.nodes }
    ensures { AreNumbersBy (row_number_of closed.entry.model.now) closed.entry.model.now.nodes numbers.new }
{
    let mut k = closed.model.allowed.len();
    numbers.fill(k as u32);
    while k > 0 {
        k -= 1;
        numbers[closed.model.allowed.get(k).node as usize] = k as u32;
    }
}

// Writes over the numbers of the pairs of all nodes, from the last pair to the first.
fn write_pairs(closed: Closed<'_>, numbers: &mut [u32])
    requires long { length numbers.old ≡ closed.model.now.nodes }
    ensures { AreNumbersBy (pair_number closed.entry.model.now) closed.entry.model.now.nodes numbers.new }
{
    let mut k = closed.model.pairs.len();
    numbers.fill(k as u32);
    while k > 0 {
        k -= 1;
        let pair = *closed.model.pairs.get(k);
        numbers[pair.pickup as usize] = k as u32;
        numbers[pair.delivery as usize] = k as u32;
    }
}

// For each node of a model the number of its pair.
fn pair_numbers(alloc: Global, closed: Closed<'_>) -> Result<Seq<u32>, NoMemory>
    ensures { IfOk result (AreNumbersBy (pair_number closed.entry.model.now) closed.entry.model.now.nodes) }
{
    let mut numbers = no_numbers(alloc, closed.model)?;
    write_pairs(closed, &mut numbers);
    Ok(Seq::from(numbers))
}

/// For each node of a model the number of its group, that of all groups if it is in none. It goes once over the groups.
/// It fails only if it is out of memory.
pub fn group_numbers(alloc: Global, model: &RoutingModel) -> Result<Seq<u32>, NoMemory>
    requires { IsWellFormed model.now }
    ensures { IfOk result (AreNumbers model.now) }
{
    let mut numbers = no_numbers(alloc, model)?;
    write_groups(Closed { model }, &mut numbers);
    Ok(Seq::from(numbers))
}

// As many places as asked for, without a mark.
fn no_marks(alloc: Global, places: usize) -> Result<Vec<bool>, NoMemory>
    ensures { IfOk result (λ marks. marks.items ≡ replicate places false) }
{
    let mut marks = Vec::with_capacity(alloc, places)?;
    for _place in 0..places {
        marks.push(false)?;
    }
    Ok(marks)
}

// Marks the vehicles of a row.
fn mark_vehicles(marks: &mut [bool], row: &Allowed)
    requires within { All (λ v. v < length marks.old) row.now.vehicles }
    requires none { marks.old ≡ replicate (length marks.old) false }
    ensures { AreMarksOf row.now marks.new }
{
    write_each(marks, row.vehicles.as_slice(), true);
}

// Which of all vehicles a row has.
fn marks_of(alloc: Global, vehicles: usize, row: &Allowed) -> Result<Seq<bool>, NoMemory>
    requires { All (λ v. v < vehicles) row.now.vehicles }
    ensures { IfOk result (AreMarksOf row.now) }
{
    let mut marks = no_marks(alloc, vehicles)?;
    mark_vehicles(&mut marks, row);
    Ok(Seq::from(marks))
}

// The same of each row.
fn row_marks(alloc: Global, closed: Closed<'_>) -> Result<Seq<Seq<bool>>, NoMemory>
    ensures { IfOk result (AreRowMarks closed.entry.model.now) }
{
    let mut marks = Seq::new(alloc);
    for k in 0..closed.model.allowed.len() {
        marks.push(marks_of(
            alloc,
            closed.model.vehicles.len(),
            closed.model.allowed.get(k),
        )?)?;
    }
    Ok(marks)
}
