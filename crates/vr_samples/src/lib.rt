//! What tests ask about: models of texts, and routes of lists. It also has how tests go through tables of rows. The
//! program does not use it.
#![tactic(auto)]

mod models;
mod routes;
mod test_tables;

pub use models::read_model_text;
pub use routes::{routes_of, valid_routes};
pub use test_tables::all_hold;
