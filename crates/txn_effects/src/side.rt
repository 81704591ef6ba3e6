//! Which tables the statements of a block are on.

/// The convergent tables, or the others: a block's statements are on one side alone.
#[derive(Clone, Copy, Debug, PartialEq, Eq)]
pub enum Side {
    Convergent,
    Ordinary,
}
