//! A late master joins: what hinders it at a site, and the site that it begins as, a copy of another one.
#![tactic(auto)]

mod copy;
mod firsts;
mod quiet;
mod rows;

pub use copy::copy_site;
pub use quiet::{master_errors, unfinished, unfinished_of};
