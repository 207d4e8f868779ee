//! The search by ruin and recreate (slack induction by string removals, Christiaens and Vanden Berghe 2020), with
//! annealing. A step takes strings of visits out of neighbouring routes. It puts the visits back one by one, each at
//! the cheapest place of the vehicle that it costs least. Now and then it takes the second vehicle. What comes out is
//! kept if it costs less, and early in the search also if it costs a little more. The best routes of all are the
//! answer.
//!
//! All routes of a search are open, and an answer has the first cheapest of the valid ones that the search had
//! (`laws`). Routes that lack something take part too: a search may begin with routes that are open and not valid, and
//! find valid ones. `specs/Lacking` says what open routes still lack, and `specs/Offers` how an item is put back.
//! `specs/Steps` says what a step makes and whether it is accepted, and `specs/Refining` has the search.
//!
//! The program `vr_refine` calls it. What is drawn is in `vr_strings`, what costs and is open in `vr_rules`. `wish` has
//! what is asked of a search, and `answer` what it gives. `beginning` begins it and answers, `searching` goes from step
//! to step, `advancing` makes one step and `accepting` takes over what comes out of it. `stepping` makes routes anew:
//! `cutting` takes strings out, and `turning` puts the items back in their turns. It goes by the offers that `making`
//! writes in the order of `ranking`. They do so on routes on trial (`trial`), whose lists are always open. `judging`
//! says which routes are better and which are accepted, by `lacking`, `paying` and `heating`.
//!
//! `asking` says at which places an item goes in a list, place by place (`placing`). An item that the vehicle cannot
//! carry goes nowhere (`carrying`). What it adds is told by the arcs at its places (`increase`). For a visit these are
//! read along one column and one row of a matrix (`columns`). Places that add too much are passed over (`places`). Of a
//! pair the pickup goes to each place in turn, and its delivery to those after it (`pairs`).
//!
//! Only a place that would be the best is tested, by walks from the rows of the list. These rows, the arcs of the list
//! and what it carries are kept (`known`), and are written when another list is asked. A price is arcs and a fixed cost
//! if no schedule costs anything; else the schedules of all routes are asked. Start reading at `stepping`.
#![tactic(auto)]

mod accepting;
mod advancing;
mod answer;
mod asking;
mod beginning;
mod carrying;
mod cheapest;
mod columns;
mod cutting;
mod heating;
mod increase;
mod judging;
mod known;
mod lacking;
mod laws;
mod making;
mod pairs;
mod paying;
mod places;
mod placing;
mod ranking;
mod searching;
mod stepping;
mod trial;
mod turning;
mod wish;

pub use answer::Refined;
pub use beginning::refine_over;
pub use laws::{
    cooling_goes_on, heat_is_bounded, open_is_valid_without_lack, refining_answers,
    refining_is_sound, refining_stops, steps_stay_open, valid_first_is_kept,
};
pub use wish::Wish;
