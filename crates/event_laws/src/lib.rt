//! Laws over every list of events at the sites: what is sent, comes, is applied, acknowledged, purged, refreshed and joins.
#![tactic(auto)]

mod laws;
mod laws_of_joins;
mod laws_of_refreshes;

pub use laws::{
    earlier_comes_first, errors_stand_whole, every_site_fits, executions_apply_anew,
    marks_are_never_ahead, nothing_waits_for_ever, passes_leave_nothing_ready,
    purges_take_what_is_acknowledged, queries_are_rules, ready_positions_in_any_order,
};
pub use laws_of_joins::{joins_copy, names_stay_apart, streams_meet};
pub use laws_of_refreshes::{
    fast_is_complete, noted_are_above_purged, other_keys_are_the_masters, pending_parents_rise,
    refreshed_is_the_rule, refreshed_tables_are_the_rules, snapshot_keys_rise,
};
