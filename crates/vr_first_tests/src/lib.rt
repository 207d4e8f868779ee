//! Tests of the rules, of first solutions and of what is printed of solutions, through what their crates make public.
//! Each call answers if there is memory, and rows are worked out by hand. The tests have a crate of their own, so that
//! the crates that they test are proved once.
#![tactic(auto)]

#[cfg(test)]
mod firsts;
#[cfg(test)]
mod named_rows;
#[cfg(test)]
mod printing;
#[cfg(test)]
mod rules;
