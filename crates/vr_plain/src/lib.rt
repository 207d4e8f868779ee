//! A judge that builds the whole assignment anew for each move: the searches can be read against it. It is what the
//! definitions say, step by step.
//!
//! Invariant: the kept total is the cost of the committed lists.
//!
//! Tests compare whole searches by it and by the judge of filters (`vr_judge`). The program does not use it. It asks
//! `vr_rules` whether the lists after a move are valid and what they cost.
//!
//! Start reading at [`PlainJudge`] (`judge`).
#![tactic(auto)]

mod judge;

pub use judge::PlainJudge;
