//! The block of a transaction.

use rep_calls::Statement;
use rep_lists::Items;
use rep_values::SiteName;

/// The block that is open: its site, its statements in their order, and the line of each. It keeps one more than a block
/// may have, so that the line of that one is known.
#[derive(Drop)]
pub struct Block {
    pub site: SiteName,
    pub lines: Items<u32>,
    pub statements: Items<Statement>,
}
