//! What happens in a run of a script, line by line: what comes to each site's journal, what becomes of each packet, and the rest.
#![tactic(auto)]

mod events;
mod follower;
mod following;
mod happening;
mod lane;
mod living;
mod looking;
mod open_story;
mod part;
mod refreshing;
mod story;

pub use happening::{Event, Line, Outcome, Span};
pub use lane::{Lane, LaneKind};
pub use story::{Story, story_of};
