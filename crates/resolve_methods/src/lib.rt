//! What the methods of a column group decide where a row hasn't the old values of an update.
#![tactic(auto)]

mod decision;
mod laws;
mod methods;
mod new_values;
mod numbers;
mod order_cases;
mod ranks;
mod sequence_laws;

pub use decision::Decision;
pub use laws::{
    amounts_add_in_any_order, either_side_ends_the_same, greater_number_stays, lesser_number_stays,
    mean_is_the_same_from_either_side, order_is_ignored,
};
pub use methods::decide;
pub use sequence_laws::{
    greater_rank_stays, greatest_stays, least_stays, move_is_added, moves_add_in_any_order,
    moves_add_up, moves_are_taken, new_rank_is_the_parts_own,
};
