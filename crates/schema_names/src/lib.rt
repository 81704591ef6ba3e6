//! What stands in a schema under a name.
#![tactic(auto)]

mod masters;
mod named;
mod neighbours;
mod pairs;

pub use masters::{first_master, is_late_master, is_master_site};
pub use named::{
    OnColumns, column_place, constraint_place, find_check, find_column, find_constraint,
    find_group, find_priority, find_site, find_table, group_name, group_place, has_column,
    has_master, is_taken, priority_place, site_place, table_place,
};
pub use neighbours::{destinations_of, gets_from, senders_of, sends_to};
pub use pairs::linked_pairs;
