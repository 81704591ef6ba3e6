//! Runs the statements of a block as one local transaction, all of it or nothing.
#![tactic(auto)]

mod base;
mod convergent;
mod filled;
mod held;
mod laws;
mod literals;
mod progress;
mod rows;
mod run;
mod sets;
mod statement;

pub use base::{fill_base_rows, put_base_row};
pub use laws::{sound_schemas_fill_freely, stamps_of_a_block_rise};
pub use run::run_local;
