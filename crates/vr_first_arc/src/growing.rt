//! What lists are filled by, and a list at whose end items are put.

use vr_plan::Lookups;
use vr_rules::{Candidate, Fronts};

// What lists are filled by: what was looked up of the model, and its items.
#[derive(Clone, Copy)]
pub(crate) struct Filling<'l, 'm, 'c> {
    pub(crate) lookups: &'l Lookups<'m>,
    pub(crate) candidates: &'c [Candidate],
}

// The list of a vehicle at whose end an item may be put.
#[derive(Clone, Copy)]
pub(crate) struct Growing<'l, 'm, 'c, 'k> {
    pub(crate) filling: Filling<'l, 'm, 'c>,
    pub(crate) v: u32,
    pub(crate) list: &'k [u32],
    // what the list reaches at its end
    pub(crate) fronts: &'k Fronts,
    // which nodes are in lists
    pub(crate) marks: &'k [bool],
}
