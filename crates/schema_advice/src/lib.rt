//! Which part of a schema breaks a rule, and what in a schema that breaks none may leave sites apart or in error.
#![tactic(auto)]

mod advice;
mod broken;
mod methods;
mod parts;
mod remark;
mod rules;

pub use advice::table_remarks;
pub use broken::{BrokenPart, broken_parts};
pub use remark::{Remark, RemarkText, method_word};
pub use rules::rule_text;
