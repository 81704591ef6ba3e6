//! A world as a script makes it: its declared schema, its sites, the net between them and the open block, and
//! the same of procedures; and why a line of the script is refused there.
#![tactic(auto)]

mod answer;
mod joins;
mod laws;
mod names;
mod parts;
mod phases;
mod procedures;
mod procs;
mod refresh_refusals;
mod refusals;
mod room;
mod snapshots;
mod testing;

pub use answer::{Answer, CommandStop, Outcome};
pub use laws::lines_keep_worlds_of_scripts;
pub use parts::{WorldParts, place_of};
pub use procs::{Procs, find_procedure, proc_place_of, procedure_place};
pub use refresh_refusals::young_step;
pub use room::{drop_last, room_for_line};
pub use snapshots::master_of;
pub use testing::{column_number, tests_in, tests_of};
