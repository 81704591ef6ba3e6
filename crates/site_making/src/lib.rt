//! The sites and the net that the end of Setup makes, those of procedures too.
#![tactic(auto)]

mod net;
mod procs;
mod shown;
mod sites;
mod table_sets;

pub use net::make_net;
pub use procs::make_proc_sites;
pub use sites::{make_sites, master_here};
