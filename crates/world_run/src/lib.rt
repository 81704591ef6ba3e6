//! The world of a script: each line of the script as one step of it; and a whole script, read from a
//! source, whose lines are run one by one on a world, and whose report goes to a sink.
#![tactic(auto)]

mod built_world;
mod crew;
mod laws;
mod lines;
mod live_end;
mod live_part;
mod live_run;
mod live_script;
mod part_laws;
mod run;
mod runner;
mod streaming;

pub use built_world::World;
pub use laws::{lent_masters_may_come_back, reported_worlds_hold};
pub use live_run::{run_live, run_live_through};
pub use part_laws::{
    live_scripts_keep_lines, live_worlds_hold, printed_turns_are_known, scripts_have_full_turns,
};
pub use run::{run_alone, run_alone_through, run_crew, run_crew_through};
