//! One site: its rows and what leads to them, what it sends, what it took in, and what it notes of changed rows. Each call is
//! one event of the site.
#![tactic(auto)]

mod applying;
mod committing;
mod journal;
mod laws;
mod looking;
mod seen;
mod site;

pub use laws::outcomes_hold_where_rows_are_as_they_were;
pub use site::Site;
