//! How far a form goes on with the tokens of a line, and what it goes on with there.
#![tactic(auto)]

mod declared;
mod forms;
mod parts;
mod procedures;
mod running;

pub use forms::follow;
