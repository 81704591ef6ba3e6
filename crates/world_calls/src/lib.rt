//! What lines about procedures do to a world: tables and procedures are declared, calls are gathered and
//! sent, pushed to another master and applied there, and errors of calls are executed again.
#![tactic(auto)]

mod applying;
mod blocks;
mod declaring;
mod deliver;
mod errors;
mod fates;
mod lines;
mod literals;
mod marks;
mod outbound;
mod pushing;
mod sending;
mod words;

pub use lines::run_proc_line;
