//! Laws of worlds: each line of a script is a list of events at the sites, so that every law over events holds of every world.
#![tactic(auto)]

mod laws;
mod laws_of_procedures;
mod laws_of_snapshots;

pub use laws::{
    nothing_waits_in_worlds, pushes_leave_nothing_ready, refused_lines_leave_the_world,
    sites_of_worlds_fit, steps_are_events, worlds_hold,
};
pub use laws_of_procedures::{
    procedures_hold, pushes_of_calls_leave_nothing_ready, worlds_build_procedures,
};
pub use laws_of_snapshots::{
    keys_of_worlds_come_once, logs_of_worlds_are_noted_since, made_worlds_are_starts,
    refreshes_show_the_query, scripts_declare_well, sites_of_worlds_can_refresh, snapshots_hold,
};
