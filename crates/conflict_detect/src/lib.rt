//! Whether a transaction fits a schema, in which groups a call's old values differ from a row, and the calls of changed
//! rows.
#![tactic(auto)]

mod change_call;
mod detection;
mod fitting;
mod group_set;
mod laws;

pub use change_call::{call_of, txn_of};
pub use detection::{Found, detect, has_old_values};
pub use fitting::{call_fits, fits, table_of};
pub use group_set::GroupSet;
pub use laws::{
    calls_of_changes_fit, found_groups_tell, parts_lead_to_the_row_after, rows_before_match,
    rows_differ_in_some_group,
};
