//! Declarations: why one is refused, and what it adds to a schema.
#![tactic(auto)]

mod additions;
mod check_refusals;
mod declaration;
mod laws;
mod limits;
mod places;
mod priority_changes;
mod refusals;
mod shaping;
mod table_changes;

pub use additions::add_declaration;
pub use declaration::{Declare, MethodWords, UniqueWords};
pub use laws::{
    declared_tables_are_tables, lines_pass_that_name_free_columns, one_value_gets_the_level,
    places_are_those_of_named_columns,
};
pub use places::places_named;
pub use refusals::refusal_of;
pub use shaping::table_shaped;
