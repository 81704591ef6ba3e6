//! What the words of the program's command line ask for.
#![tactic(auto)]

mod command;
mod forms;
mod numerals;
mod words;

pub use words::{Asked, asked_by};
