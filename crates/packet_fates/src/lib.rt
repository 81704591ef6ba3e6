//! What becomes of the packets that the lines of a script send: the fates on each way, what is held, and which directions are down.
#![tactic(auto)]

mod arrivals;
mod outlook;
mod packet;
mod roads;
mod station;
mod telling;
mod ways;

pub use arrivals::Arrivals;
pub use outlook::{Outlook, Push, look_ahead};
pub use packet::{Cargo, Coming, Fared, Packet, Traffic};
pub use roads::Roads;
pub use station::Station;
pub use telling::{tell_answer, tell_sent};
pub use ways::{Links, Way, Ways};
