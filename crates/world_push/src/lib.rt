//! A push from one site of a world to another: what isn't acknowledged is sent and taken in, the receiver applies it and
//! tells what came of it, and its mark goes back. Pieces of it stand before and behind a live part at a master.
#![tactic(auto)]

mod applying;
mod deliver;
mod laws;
mod lending;
mod marks;
mod pushing;
mod send;

pub use laws::live_parts_keep_worlds_built;
pub use lending::{live_close, live_open, live_refusal};
pub use pushing::push;
