//! What a lint tells of a script: why lines aren't done, which of them have one cause, what may be meant otherwise, and how that reads.
#![tactic(auto)]

mod advice;
mod level;
mod lines;
mod remarks;
mod tally;
mod trail;
mod why;

pub use advice::{Advice, AdviceFound};
pub use level::Level;
pub use lines::{AdviceLine, ErrorLine, PartLine};
pub use tally::Further;
pub use trail::{Note, Trail};
pub use why::Why;
