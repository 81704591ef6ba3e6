//! What arrived from one sender at a site, and which of it is finished.
#![tactic(auto)]

mod arrivals;
mod inbox;
mod inboxes;
mod journal;
mod pasts;
mod steps;

pub use inbox::Inbox;
pub use inboxes::{from_senders, inbox_from, origin_at, place_from};
pub use journal::{add_error, reserve_beside, reserve_position};
pub use steps::{ApplyOutcome, Step, counted, step_of};
