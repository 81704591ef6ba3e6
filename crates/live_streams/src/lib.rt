//! A live part at one site: blocks of sessions and what origins sent are taken in turns.
#![tactic(auto)]

mod crew;
mod live;
mod rounds;
mod run;
mod shared;
mod threads;
mod turns;

pub use live::Live;
pub use run::run_streams;
