//! What becomes of a row that violates a uniqueness constraint.
#![tactic(auto)]

mod appending;
mod counters;
mod laws;
mod settled;
mod trying;

pub use counters::Counters;
pub use laws::{
    counters_never_fall, counters_stand_still_without_sequences, counters_stay_counters,
    free_rows_stay_themselves, other_counters_stand_still, settled_rows_can_be_put,
    settled_texts_grow,
};
pub use settled::{Settled, settle_unique};
pub use trying::{ConstraintPlace, is_violated};
