//! What a method decides.

/// What becomes of a group's values where the row hasn't the old ones of an update.
#[derive(Clone, Copy, Debug, PartialEq, Eq)]
pub enum Decision {
    /// The new values are taken.
    TakeNew,
    /// This number is taken in the group's one column.
    TakeNumber(i64),
    /// The row keeps its values.
    Keep,
    /// The method doesn't decide.
    Undecided,
    /// The number that is to be taken leaves ±10^15.
    Range,
}
