//! Schemas, what it means for rows to be their tables, and what a store of such rows gives.
#![tactic(auto)]

mod change;
mod check;
mod compare;
mod conditions;
mod entries;
mod groups;
mod kinds;
mod putting;
mod reserved;
mod schema;
mod store;
mod table_set;

pub use change::{Change, Changes, undo};
pub use check::{Check, Rel, checks_of, failed_check};
pub use compare::{
    columns_of, compare_row, compare_rows, constraint_columns, constraint_count, constraints_of,
    have_one_key, key_in, key_of, same_picked,
};
pub use conditions::{fits_kind, is_in_range, is_keyed, is_unique, key_count, row_fits};
pub use groups::{
    GroupColumns, SHADOW, group_columns, groups_of, has_place, has_values, is_grouped,
    named_columns, same_in_group, same_values_at, value_at, values_at,
};
pub use kinds::{is_key_at, is_of_kind, kind_at, row_in_range, value_in_range};
pub use putting::{copy_of_row, holds_tables, push_change, put_if_changed, put_with_change};
pub use reserved::{is_key_name, is_shadow_name, key_name, shadow_name};
pub use schema::{
    Column, Constraint, Group, Kind, Method, PriorityGroup, PriorityLevel, Schema, SiteEntry,
    TableEntry, UniqueMethod,
};
pub use store::RowStore;
pub use table_set::TableSet;
