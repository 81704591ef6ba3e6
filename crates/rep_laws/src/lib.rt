//! Laws of replication over the definitions of the crates below.
#![tactic(auto)]

mod commuting;
mod packets;
mod schemas;

pub use commuting::{independent_transactions_commute, transactions_touch_their_tokens};
pub use packets::fitting_transactions_can_be_carried;
pub use schemas::sound_schemas_have_keys;
