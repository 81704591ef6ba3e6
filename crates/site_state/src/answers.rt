//! What the calls of a site answer.

use rep_values::ApplyError;

/// What became of a position that was to be applied.
#[derive(Clone, Copy)]
pub enum Applied {
    Done,
    Error(ApplyError),
    /// It wasn't ready, and nothing changed.
    Stale(Why),
}

/// Why a position isn't ready. The first that applies is told.
#[derive(Clone, Copy, Debug, PartialEq, Eq)]
pub enum Why {
    Finished,
    NotArrived,
    NotReady,
}

/// What became of a packet.
#[derive(Clone, Copy, Debug, PartialEq, Eq)]
pub enum Accepted {
    New,
    /// Its position had arrived before.
    Repeat,
    /// It was a mark.
    Marked,
    /// It isn't for this site, or doesn't fit it.
    Foreign,
}

/// How many transactions a pass finished.
#[derive(Clone, Copy, Debug, PartialEq, Eq)]
pub struct PassCount {
    pub done: u64,
    pub errors: u64,
}

/// How many keys a refresh looked up, and how many rows the snapshots have afterwards.
#[derive(Clone, Copy, Debug, PartialEq, Eq)]
pub struct RefreshCount {
    pub keys: u64,
    pub rows: u64,
}
