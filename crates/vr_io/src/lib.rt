//! Where bytes come from and go to, and how all of them are read and written.
//!
//! A [`Source`] and a [`Sink`] (`edges`) are devices that may fail. Over any of them, `whole` reads all bytes, up to a
//! greatest number, and writes all bytes. There are three kinds of each:
//!
//! - over std's readers and writers (`standard`);
//! - for tests alone, in memory without faults (`pure`);
//! - for tests alone, in memory with faults at the calls that a test names (`scripted`). `script` has how its calls go.
//!
//! Each device says how often it has failed, so a caller's contract can say that a failure has a cause.
//!
//! `vr_app` and `vr_refine` read and write by them. `vr_cli` and `vr_refine` hand in the two standard streams. This
//! crate uses no other of the project.
//!
//! Read `edges` first, then `whole`. Both sources in memory give out what is `remaining` of their bytes. `memory` has
//! the error of being out of memory.
#![tactic(auto)]

mod edges;
mod memory;
mod pure;
mod remaining;
mod script;
mod scripted;
mod standard;
mod whole;

pub use edges::{Failed, Sink, Source};
pub use memory::NoMemory;
pub use pure::{PureSink, PureSource};
pub use scripted::{MemSink, MemSource};
pub use standard::{StdDevice, StdSink, StdSource};
pub use whole::{ReadError, WriteFault, read_all, write_all};
