//! The arc costs of used vehicles, with bounds that stay between moves. A bound says what it adds at least to put a
//! node into the route of a vehicle.
//!
//! A search asks again and again whether some gap of a route takes a node for less than a bound. An accepted move
//! changes few gaps. So for each vehicle and node the least that any gap adds is kept (`puts`), with a stamp of when it
//! was worked out. Each gap has an age: since when it is in its route (`ages`). A kept number is lowered by the younger
//! gaps alone, and by no gap if the route is as it was. It is a bound and need not be exact, since a gap of the least
//! may vanish. If it does not tell enough, it is worked out anew, once for each new route. An example: a visit adds 40
//! at least in any gap of a route. Then the route gets two new gaps, in which the visit adds 35 and 60. These two alone
//! are looked at, and lower the bound to 35.
//!
//! The invariant: what is kept is of the committed routes (`StandsBounded`). Each kept number is at most what each gap
//! adds that is no younger than its stamp (`ArePuts`). Bounds are of plain arc costs, so they hold whatever is
//! penalised.
//!
//! `vr_judge` has its arc costs from here. Here they come from `vr_arccosts`.
//!
//! Start reading at [`BoundedArcs`] (`bounded`), which is these arc costs with the bounds beside them. Some runs put a
//! visit into the list of another vehicle, or make it active there. If the bounds tell that no move of such a run adds
//! less than a bound, it says so at once. Of all else it asks the arc costs. `drivers` says which stops are beside a
//! gap and what a node adds there. A route is a `list` in names and below.
#![tactic(auto)]

mod ages;
mod bounded;
mod drivers;
mod puts;

pub use bounded::BoundedArcs;
