//! The tables of a site as tables of a page, in which the cells are marked where masters show other values.
#![tactic(auto)]

mod tables;
mod values;

pub use tables::{is_same, table_at};
