//! Constant tables of small numbers, one for each case of a row and a column.
#![tactic(auto)]

mod order;
mod table;

pub use order::order_column;
pub use table::CaseTable;
