//! How many pickups and deliveries are in a list up to each of its nodes.

ghost use Rattle.std.specs.Prelude.{◌≡◌, ◌<◌, ◌≤◌, ℕ, false, length, take};
ghost use Rattle.vr_model.specs.declared.records.Model.{Model};
ghost use Rattle.vr_model.specs.routes.Routes.{holds};
ghost use Rattle.vr_pathfilters.specs.Counted.{AreCounted, CanBeCounted, pair_counts, count_of as count_of_node};
ghost use Rattle.vr_pathfilters.specs.Counted.{no_counts};
ghost use Rattle.vr_pathfilters.specs.Counted.{with_node as with_one_node};

use vr_lists::NodeTables;

/// How many pickups and how many deliveries are among some nodes.
#[derive(Clone, Copy)]
pub struct Counts {
    pub pickups: u32,
    pub deliveries: u32,
}

impl Counts {
    // Of no nodes.
    #[inline]
    pub(crate) fn none() -> Counts
        ensures { result ≡ no_counts }
    {
        Counts {
            pickups: 0,
            deliveries: 0,
        }
    }
}

// What is counted with one node more.
#[inline]
fn with_node(node_tables: &NodeTables<'_>, before: Counts, node: u32) -> Counts
    requires pickups { before.pickups ≤ 1000 }
    requires deliveries { before.deliveries ≤ 1000 }
    ensures { result ≡ with_one_node node_tables.now before node }
{
    match node_tables.pair_of(node) {
        None => before,
        Some(pair) => {
            if pair.pickup == node {
                return Counts {
                    pickups: before.pickups + 1,
                    deliveries: before.deliveries,
                };
            }
            Counts {
                pickups: before.pickups,
                deliveries: before.deliveries + 1,
            }
        }
    }
}

/// Writes, for each node of a list of distinct nodes, the counts of the list up to it, itself included.
pub(crate) fn write_counts(node_tables: &NodeTables<'_>, list: &[u32], table: &mut [Counts; 1000])
    requires { CanBeCounted list.now }
    ensures counted { AreCounted node_tables.now list.now table.new }
    ensures others { (node : ℕ) → holds list.now node ≡ false
        → count_of_node table.new node ≡ count_of_node table.old node }
{
    // the read tells contracts that the model is well formed
    let _model = node_tables.model();
    let mut counts = Counts::none();
    for k in 0..list.len() {
        counts = with_node(node_tables, counts, list[k]);
        table[list[k] as usize] = counts;
    }
}

// What a table has of a node.
#[inline]
fn count_of(table: &[Counts], node: u32) -> Counts
    ensures { result ≡ count_of_node table.now node }
{
    if (node as usize) < table.len() {
        return table[node as usize];
    }
    Counts::none()
}

/// What is counted of the nodes of a list before a place; at its end and past it, of all of them.
#[inline]
pub(crate) fn counts_before(list: &[u32], table: &[Counts], place: usize) -> Counts
    requires counted { (model : _) × AreCounted model list.now table.now }
    requires few { length list.now ≤ 1000 }
    ensures value { (model : Model) → AreCounted model list.now table.now
        → result ≡ pair_counts model (take place list.now) }
    ensures pickups { result.pickups ≤ 1000 }
    ensures deliveries { result.deliveries ≤ 1000 }
{
    let last = place.min(list.len());
    if last == 0 {
        return Counts::none();
    }
    count_of(table, list[last - 1])
}
