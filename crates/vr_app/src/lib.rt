//! The whole of what the program does: from the words and the bytes of a source to a status and the bytes of a sink.
//! The word `solve` and a model with a first solution, say, give status 0 and the line of the best solution found.
//! `specs/Reply` defines the reply to words and bytes, and [`run`] gives it. These files answer what is asked:
//!
//! - `words` says what is asked for. `input` finds the value in bytes, and the model in a value.
//! - `files` reads a file that is imported. `reply` has `vr_io` read the bytes.
//! - `first` builds a first solution. `total` tells what routes cost.
//! - `search` improves a first solution by the judge that it chooses. `insertion` rebuilds open routes for it.
//! - `improving` takes the search that the model names. `best` is what a search gives.
//! - `solving` works out the answer to an input, and `demo` a summary of a search for a number.
//! - `checked` answers what is asked of a solution, `spans` makes the tree of least spans for it, and `numbered` has
//!   the answers to numbers.
//! - `answer` says a status alone, or a refusal. `texts` makes the trees of statuses, refusals, findings and summaries.
//! - `logs` puts the reports of watchers after the line of a solution.
//! - `laws` has two laws: what is printed meets a check, and what is imported is read as a model.
//! - `reply` ties these to the source and the sink, and `status` says how a run ends.
//!
//! A model names one of five improvements, and each of the four searches has a crate of its own:
//!
//! - Nothing: the first solution is the best.
//! - Greedy descent and guided local search scan for the first move that they accept.
//! - Tabu search makes the best of the moves that may be made.
//! - Path neighbourhoods take the first cut whose rebuilding costs less.
//!
//! Each of the four is a strategy over rounds. Between rounds it keeps valid routes of known cost. It counts tries and
//! solutions, and tells the watchers. What all four answer is put side by side here.
//!
//! What is always true: each call that answers says which reply of the definition it gives, or that it is out of
//! memory. The routes that a search begins with are valid, and the judge is in sync with them. A function owns one
//! large value and lends it on. An input is let go as it is used: the bytes before its model is read, the value before
//! that is solved. Two things stay until the answer is made. They are the bytes of a file that is imported, and the
//! value of a question, since its solution is read from it.
//!
//! Who calls: `vr_cli` calls [`run`] with the words of its command line and the two standard streams. `vr_refine`, the
//! second program, has words and a reply of its own. It takes from here what both have:
//!
//! - the value of an input, and the answers that say a status;
//! - the first solution, and the routes at which a construction ends;
//! - the search of a mode with its line and reports ([`answer_from`]), and reports after a line ([`done`]);
//! - how an answer is delivered.
//!
//! [`read_owned`], [`improve_judged`] and [`FirstSolution`] are public for a test of `vr_app_tests` alone. This crate
//! calls those that read, those that build first solutions, `vr_judge`, the four searches, `vr_print` and `vr_check`.
//!
//! Where to start: [`run`] says which words are accepted and which statuses come. What is promised of a run of either
//! program is in `specs/Programs`. Then follow the way from `main` to a tried move, with what each frame adds:
//!
//!      1. main                vr_cli: the words, and the two standard streams
//!      2. run_watched         vr_cli: the watchers, a tally and a trace
//!      3. run_with            vr_cli: what is written is the reply with what these watchers report
//!      4. run                 reply: lends the watchers, and drops them at the end
//!      5. run_lent            reply: what is written, and the status
//!      6. respond             reply: what the words ask for
//!      7. respond_to_input    reply: the bytes of the source
//!      8. answer_input        solving: the value in them; they are let go
//!      9. answer_value        solving: a solution of it, or a question about one
//!     10. answer_solved       solving: the model in the value, which is let go
//!     11. answer_model        solving: what is looked up of the model
//!     12. answer_over         solving: the first solution
//!     13. answer_from         solving: the line; of `solve --log` the reports of watchers after it
//!     14. line_found          solving: if there is a first solution
//!     15. line_from           solving: what this costs, and the line of what is found
//!     16. search              search: as the mode asks, the first solution or a search from it
//!     17. search_unwatched    search: no watchers, if none are asked for; of `solve --log` this frame is left out
//!     18. search_watched      search: the judge, opened for each search; path neighbourhoods do not ask it
//!     19. improve_judged      search: a counter of steps, and what rebuilds routes, for path neighbourhoods alone
//!     20. improve             improving: the search that the model names, say
//!     21. guide_from          improving: guided local search, by the limit and weights of the model
//!     22. guide, search       vr_guided: rounds of scans, and penalties between them
//!     23. advance, run        vr_descent: one scan: the moves of the routes, one after another
//!     24. next_open           vr_descent: the next move, after those known or ruled out (`Judge::first_below`)
//!     25. try_move            vr_descent: asks the judge, a `vr_judge::FilterJudge`, about a move
//!     26. judge_change        vr_judge: the filters, and then what the move adds to each part of the cost
//!
//! `advance` owns the change of the move in hand and lends it down. `try_move` writes it over for each move, and hands
//! it to all that is asked. If a move is accepted, its place, the move and its difference go back to `advance`. That
//! notes the rows that the scan refused whole (`vr_known`). Then `take` has the judge make the change
//! (`commit_change`), counts the move and tells the watchers. Last, `advance` stamps what the move touched, and the
//! search lets what it keeps follow the routes.
//!
//! The way back from there to the printed line:
//!
//! - After each move the search keeps the routes that cost less than any before (`vr_descent::Incumbent`).
//! - `guide` gives these and its report, and `guide_from` makes a `Best` of them.
//! - `line_from` has `vr_print::solution_line_over` find the schedules of these routes and print them.
//! - `answer_from` puts the reports of watchers after the line, by `logs`, if they are asked for.
//! - `run_lent` writes the text of the answer to the sink and gives the number of its status, with which `main` ends.
#![tactic(auto)]

mod answer;
mod best;
mod checked;
mod demo;
mod files;
mod first;
mod improving;
mod input;
mod insertion;
mod laws;
mod logs;
mod numbered;
mod reply;
mod search;
mod solving;
mod spans;
mod status;
mod texts;
mod total;
mod words;

pub use answer::{Answer, broken, none_found, not_json, refused, too_long, usage};
pub use best::Best;
pub use first::{built_routes, fill_up, first_routes};
pub use improving::{FirstSolution, Watchers, limit_of};
pub use input::{parse_owned, read_owned};
pub use laws::{imported_trees_are_models, printed_meets};
pub use logs::done;
pub use reply::{Stop, deliver, run};
pub use search::improve_judged;
pub use solving::answer_from;
pub use status::Status;
pub use words::{Mode, Question, Request, Task};
