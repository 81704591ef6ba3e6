//! What a site of procedures is, as definitions: procedures and calls of them, what these do to tables, how they travel, and what
//! each call of such a site does and answers; and laws over them.
#![tactic(auto)]

mod call;
mod laws;
mod procedure;

pub use call::ProcCall;
pub use laws::{
    calls_lead_to_their_tables, carried_calls_do_the_same, earlier_comes_first, errors_stand_whole,
    every_site_fits, executions_apply_anew, independent_transactions_end_alike,
    passes_leave_nothing_ready, streams_depend_on_sharers,
};
pub use procedure::{Action, Procedure};
