//! A store of rows whose tables are sorted vectors.
#![tactic(auto)]

mod list_tables;
mod shared_schema;
mod sorted_rows;

pub use list_tables::ListTables;
pub use shared_schema::SharedSchema;
