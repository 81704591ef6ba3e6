//! Laws of errors on convergent tables, over every list of events: how a transaction can fail there.
#![tactic(auto)]

mod laws;
mod laws_of_lost_inserts;

pub use laws::{errors_are_excused, keys_are_never_taken, missing_rows_were_never_there};
pub use laws_of_lost_inserts::{
    missing_rows_are_of_inserts_in_error, missing_rows_are_of_lost_inserts,
};
