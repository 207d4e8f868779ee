//! The two directions in which an arc is crossed.

/// From the begin of an arc on to its end, or from its end back to its begin.
#[derive(Clone, Copy, Debug, PartialEq, Eq)]
pub enum Way {
    On,
    Back,
}
