//! The rules that a schema has to keep when its declarations end.
#![tactic(auto)]

mod check_rules;
mod columns;
mod constraint_rules;
mod convergent_rules;
mod forms;
mod key_rules;
mod laws;
mod method_rules;
mod rules;

pub use forms::{Form, form_of};
pub use laws::soundness_law;
pub use rules::check;
