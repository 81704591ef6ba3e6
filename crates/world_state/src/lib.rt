//! What a script's world is, as definitions: what it keeps, what each line of a script does to it, and why one is refused.
#![tactic(auto)]

mod block;
mod call_block;
mod declared_snapshot;
mod phase;
mod refused;

pub use block::Block;
pub use call_block::{CallBlock, CallStop};
pub use declared_snapshot::DeclaredSnapshot;
pub use phase::Phase;
pub use refused::Refused;
