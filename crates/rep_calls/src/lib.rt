//! Calls, transactions, what was seen before them, and statements.
#![tactic(auto)]

mod call;
mod past;
mod statement;

pub use call::{Call, Part, Txn};
pub use past::PastEntry;
pub use statement::{How, Set, Statement};
