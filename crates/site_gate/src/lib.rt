//! A lock by tickets, whose value tells its history turn by turn.
#![tactic(auto)]

mod calls;
mod gate;
mod laws;
mod pass;
mod plays;
mod rule;
mod turns;
mod view;

pub use gate::SiteGate;
pub use laws::own_turns_laws;
pub use pass::{Pass, Turn};
pub use turns::Turns;
