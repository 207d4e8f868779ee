//! Tables of the counts of lists up to each of their nodes.

ghost use Rattle.std.specs.Prelude.{◌≡◌, ℕ, false};
ghost use Rattle.vr_model.specs.routes.Routes.{holds};
ghost use Rattle.vr_pathfilters.specs.Counted.{AreCounted, CanBeCounted, asks_turns, count_of};

use super::counts::{Counts, write_counts};
use vr_lists::NodeTables;
use vr_model::Policy;

/// How many pickups and deliveries are in lists up to each of their nodes. It has room for the largest model in place,
/// 16 kilobytes, and takes no memory.
#[derive(Drop)]
pub struct Turns {
    /// For each node of the lists that were put, the counts of its list up to it, itself included.
    pub listed: [Counts; 1000],
    /// For each node that a change puts into a list, the counts of these nodes up to it.
    pub between: [Counts; 1000],
}

impl Turns {
    /// Room for any lists of any model.
    pub fn new() -> Turns {
        Turns {
            listed: [Counts::none(); 1000],
            between: [Counts::none(); 1000],
        }
    }

    /// Whether a policy asks that pairs come in turn.
    #[inline]
    pub fn are_asked(policy: Policy) -> bool
        ensures { result ≡ asks_turns policy }
    {
        match policy {
            Policy::Any => false,
            Policy::Lifo => true,
            Policy::Fifo => true,
        }
    }

    /// Counts the nodes of a committed list. What `listed` has of other nodes stays; of `between` nothing is promised.
    pub fn put(&mut self, node_tables: &NodeTables<'_>, list: &[u32])
        requires { CanBeCounted list.now }
        ensures counted { AreCounted node_tables.now list.now self.new.listed }
        ensures others { (node : ℕ) → holds list.now node ≡ false
            → count_of self.new.listed node ≡ count_of self.old.listed node }
    {
        write_counts(node_tables, list, &mut self.listed);
    }

    /// Counts the nodes that a change puts into a list. What is kept of committed lists stays.
    pub fn put_between(&mut self, node_tables: &NodeTables<'_>, middle: &[u32])
        requires { CanBeCounted middle.now }
        ensures counted { AreCounted node_tables.now middle.now self.new.between }
        ensures kept { self.new.listed ≡ self.old.listed }
    {
        write_counts(node_tables, middle, &mut self.between);
    }
}
