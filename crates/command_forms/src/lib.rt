//! The form of each command of a script, told by its first word, in the words of the guide.
#![tactic(auto)]

mod forms;
mod wanted;
mod words;

pub use forms::Form;
pub use wanted::{NameOf, Wanted};
pub use words::{COMMANDS, form_at};
