//! A script line by line: what the engine makes of each. Where a line is malformed a run ends; here it is passed over.
#![tactic(auto)]

mod answer;
mod came;
mod lines;
mod steps;

pub use answer::{Answer, Verdict};
pub use came::Came;
pub use lines::split_line;
pub use steps::Steps;
