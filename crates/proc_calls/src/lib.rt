//! A site of procedures over a store of rows: calls of procedures are made there, queued for other masters, sent, taken in and
//! applied.
#![tactic(auto)]

mod applying;
mod arrived;
mod carrying;
mod changing;
mod outbox;
mod site;
mod stop;
mod trail;

pub use site::ProcSite;
pub use stop::ProcStop;
