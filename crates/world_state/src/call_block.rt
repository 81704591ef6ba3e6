//! The block of calls.

use rep_lists::Items;
use rep_values::{Refusal, SiteName};
use script_parse::CallWords;

/// The block of calls that is open: its site, its calls in their order, and the line of each. It keeps one more than a block
/// may have, so that the line of that one is known.
#[derive(Drop)]
pub struct CallBlock {
    pub site: SiteName,
    pub lines: Items<u32>,
    pub calls: Items<CallWords>,
}

/// The first call of a block that is refused, from 1, and why.
#[derive(Clone, Copy)]
pub struct CallStop {
    pub call: u32,
    pub refusal: Refusal,
}
