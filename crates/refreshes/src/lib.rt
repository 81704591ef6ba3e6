//! Refreshes of a snapshot's table: by the keys that may have changed, or whole.
#![tactic(auto)]

mod all_snapshots;
mod by_keys;
mod change;
mod counts;
mod done;
mod plan;
mod refresh;
mod showing;
mod to_rows;
mod view;

pub use all_snapshots::{refresh_all, refresh_all_fast};
pub use refresh::{refresh_complete, refresh_fast};
pub use showing::{query_laws, rows_shown, shows_others};
pub use view::{CountedView, MasterView};
