//! The columns that literals are given for.

/// The columns that literals are given for: those that a script writes, or the key columns.
#[derive(Clone, Copy)]
pub enum Given {
    Written,
    Key,
}
