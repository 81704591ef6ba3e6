//! Laws of convergent tables, over every list of events: what each group of a row comes to, and where masters agree.
#![tactic(auto)]

mod laws;
mod laws_of_agreement;

pub use laws::{
    blocks_keep_forms, convergent_calls_fail_so, groups_are_joined, groups_are_joined_in_journals,
    groups_are_joined_since, joins_are_one, onward_has_its_effect, row_changes_keep_forms,
    same_calls_give_same_rows,
};
pub use laws_of_agreement::{
    groups_are_joined_between, latest_values_tell_apart, pairs_are_made_once, pairs_tell_values,
    quiet_masters_agree, quiet_masters_agree_again,
};
