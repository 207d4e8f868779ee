//! The policies of vehicles, last in first out and first in first out. They are told by how many pickups and deliveries
//! come before the nodes of a pair. So a change of a list is judged by the nodes that it puts in, however long the list
//! is.
//!
//! Last in first out, a pair comes in turn if as many are picked up as are delivered between its nodes. First in first
//! out, it does if as many are picked up before its pickup as are delivered before its delivery.
//!
//! For example, let `p` and `d` be a pair and `P` and `D` another. In the list `p P D d` the first pair comes in turn
//! last in first out: between its nodes one is picked up and one delivered. In `p P d D` it comes in turn first in
//! first out: nothing is picked up before `p`, and nothing delivered before `d`.

mod counts;
pub mod laws;
mod new_counts;
mod turns;

pub use counts::Counts;
pub use new_counts::NewCounts;
pub use turns::Turns;
