//! What is looked up once of a model, for all that ask it.

ghost use Rattle.std.specs.Prelude.{◌≡◌, ◌<◌, IfOk, length};
ghost use Rattle.std.proofs.Props.{props};
ghost use Rattle.vr_plan.specs.Tables.{AreTables, IsTable};

use crate::tables::{Table, tables_of};
use std::alloc::Global;
use std::marker::Model;
use std::rc::Rc;
use vr_lists::NodeTables;
use vr_model::{Closed, Model as RoutingModel, NoMemory};

/// What is looked up once of a model, as OR-Tools does in `CloseModel`. It is what the stops of each dimension ask, and
/// the group, the pair and the allowed vehicles of each node.
///
/// Those who ask it share it, and none of them writes to it. It goes with the last of them.
#[derive(Drop)]
pub struct Lookups<'m> {
    /// The model.
    pub closed: Closed<'m>,
    shared: Rc<LookedUp<'m>>,
    /// What is shared is of the model.
    pub ghost same: { shared.value ≡ closed.model.now } by { Prim.hlevel props },
}

// What is shared. Contracts see the model.
#[derive(Drop)]
struct LookedUp<'m> {
    model: &'m RoutingModel,
    tables: Vec<Table>,
    nodes: NodeTables<'m>,
}

impl<'m> Model for LookedUp<'m> {
    ghost use Rattle.vr_model.specs.declared.records.Model.{Model as Defined};
    ghost use Rattle.vr_plan.specs.LookedUp.{AreLookedUp};

    ghost Value = { Defined };

    ghost view = { λ all. all.model.now };

    ghost invariant = { λ all. AreLookedUp all.model.now all.tables.items all.nodes };
}

impl<'m> LookedUp<'m> {
    // What is shared of a model.
    fn open(alloc: Global, closed: Closed<'m>) -> Result<LookedUp<'m>, NoMemory>
        ensures { IfOk result (λ all. all ≡ closed.entry.model.now) }
    {
        Ok(LookedUp {
            model: closed.model,
            tables: tables_of(alloc, closed.model)?,
            nodes: NodeTables::open(alloc, closed.model)?,
        })
    }

    // What was looked up of the dimensions.
    #[inline]
    fn tables(&self) -> &[Table]
        ensures { AreTables self.now result.now }
    {
        &self.tables
    }

    // What was looked up of dimension `d`.
    #[inline]
    fn table(&self, d: u32) -> &Table
        requires { d < length self.now.dimensions }
        ensures { IsTable self.now d result.now }
    {
        &self.tables[d as usize]
    }

    // What was looked up of the nodes.
    #[inline]
    fn nodes(&self) -> &NodeTables<'m>
        ensures { result.now ≡ self.now }
    {
        &self.nodes
    }
}

impl<'m> Lookups<'m> {
    /// What is looked up of a model: once in a run by `vr_app`, and by calls of other crates that are handed a model
    /// alone. It fails only if it is out of memory.
    pub fn open(alloc: Global, closed: Closed<'m>) -> Result<Lookups<'m>, NoMemory>
        ensures { IfOk result (λ lookups. lookups.closed.model.now ≡ closed.entry.model.now) }
    {
        Ok(Lookups {
            closed,
            shared: Rc::new(alloc, LookedUp::open(alloc, closed)?)?,
        })
    }

    /// The same for one more who asks it. It looks nothing up and takes no memory; `NoMemory` only if as many share it
    /// as can be counted.
    pub fn share(&self) -> Result<Lookups<'m>, NoMemory>
        ensures { IfOk result (λ lookups. lookups.closed.model.now ≡ self.now.closed.model.now) }
    {
        Ok(Lookups {
            closed: self.closed,
            shared: self.shared.clone()?,
        })
    }

    /// What was looked up of its dimensions.
    #[inline]
    pub fn tables(&self) -> &[Table]
        ensures { AreTables self.now.closed.model.now result.now }
    {
        self.shared.tables()
    }

    /// What was looked up of dimension `d`.
    #[inline]
    pub fn table(&self, d: u32) -> &Table
        requires { d < length self.now.closed.model.now.dimensions }
        ensures { IsTable self.now.closed.model.now d result.now }
    {
        self.shared.table(d)
    }

    /// What was looked up of its nodes.
    #[inline]
    pub fn nodes(&self) -> &NodeTables<'m>
        ensures { result.now ≡ self.now.closed.model.now }
    {
        self.shared.nodes()
    }
}
