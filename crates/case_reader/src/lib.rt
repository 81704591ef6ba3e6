//! The words of a case: what programs that read cases as lines have in common.
#![tactic(auto)]

mod calls;
mod declarations;
mod pasts;
mod statements;
mod stop;
mod words;
mod written;

pub use calls::read_call;
pub use declarations::{declare, read_declaration};
pub use pasts::{push_past, read_past};
pub use statements::read_statement;
pub use stop::CaseStop;
pub use words::Words;
pub use written::{push_name, push_number, push_row, push_value, push_values};
