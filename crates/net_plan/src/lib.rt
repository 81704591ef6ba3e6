//! The net between sites: which directions are up, what becomes of packets that are sent, and which are on the way.
#![tactic(auto)]

mod direction;
mod fate;
mod laws;
mod net;

pub use fate::Fate;
pub use laws::{deliveries_were_sent, directions_stay};
pub use net::Net;
