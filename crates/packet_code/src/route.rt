//! Where a transaction goes.

use rep_values::SiteName;

/// From which site a transaction goes to which, its number in the sender's queue, its position in the stream to the
/// receiver, and the position that it depends on, 0 for none.
#[derive(Clone, Copy)]
pub struct Route {
    pub from: SiteName,
    pub to: SiteName,
    pub number: u64,
    pub position: u64,
    pub dep: u64,
}
