//! A script that is run, with what happened and what to do behind each line of its report that wants it.
#![tactic(auto)]

mod done;
mod explainer;
mod lines;
mod malformed;
mod pushing;
mod reasons;
mod refusing;
mod script;
mod told;

pub use explainer::{Explainer, Next};
pub use script::explain;
pub use told::Told;
