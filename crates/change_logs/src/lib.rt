//! The log of a master's table: the keys of its changed rows, each with its last moment.
#![tactic(auto)]

mod changed;
mod entry;
mod laws;
mod laws_of_logs;
mod log;
mod logs;
mod merge;
mod notes;
mod snapshots;
mod tables;
mod touched;
mod watched;

pub use entry::LogEntry;
pub use laws::snapshot_laws;
pub use laws_of_logs::log_laws;
pub use log::Log;
pub use notes::Notes;
pub use tables::tables_of;
pub use watched::Watched;
