//! Laws of convergence in worlds: quiet masters of every script agree, and their errors are excused.
#![tactic(auto)]

mod laws;

pub use laws::{
    convergence_holds, errors_of_worlds_are_excused, groups_of_worlds_are_joined,
    latest_values_of_worlds_tell_apart, made_worlds_begin_alike, quiet_masters_of_worlds_agree,
};
