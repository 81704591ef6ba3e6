//! Applies a transaction to a store, all of it or nothing.
#![tactic(auto)]

mod apply;
mod call;
mod laws;
mod making;
mod naming;
mod outcome;
mod part;
mod stop;
mod work;

pub use apply::{Applied, apply_txn, take_back};
pub use laws::support_outlasts_independent_transactions;
pub use making::{make_changes, make_room, redo};
pub use outcome::{Ending, Outcome};
pub use stop::ApplyStop;
pub use work::Work;
