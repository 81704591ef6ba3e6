//! The row that a statement makes.

use rep_values::Row;

/// A row that a statement makes, and the site's last stamp then.
#[derive(Drop)]
pub struct RowMade {
    pub row: Row,
    pub last: u64,
}
