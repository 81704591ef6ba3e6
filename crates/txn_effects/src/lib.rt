//! What one call and one whole transaction do to tables and counters: definitions, and laws over them; and the next stamp of a site.
#![tactic(auto)]

mod given;
mod laws;
mod local;
mod row_made;
mod side;
mod stamps;

pub use given::Given;
pub use laws::{calls_of_changes_make_them, transactions_lead_to_their_tables};
pub use local::{Here, Local, LocalStop, Stamps};
pub use row_made::RowMade;
pub use side::Side;
pub use stamps::stamp_above;
