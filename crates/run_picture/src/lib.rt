//! A run as a picture: a lane for each site with what comes to it, and what there is at the end.
#![tactic(auto)]

mod badges;
mod chart;
mod folding;
mod heads;
mod laws;
mod page;
mod rows;
mod words;

pub use laws::whole_stories_are_drawn;
pub use page::picture;
