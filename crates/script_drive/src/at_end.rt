//! What becomes of what a run holds.
use crate::run::{LineRunner, Run};
use std::mem;

/// What becomes of what a run holds when it ends.
#[derive(Clone, Copy, Debug, PartialEq, Eq)]
pub enum AtEnd {
    /// It is taken apart, and its memory is given back.
    GiveBack,
    /// It stays as it is and its memory stays taken, which costs no time: for a process that is about to end.
    Leave,
}

/// Ends a run.
pub(crate) fn end<X: LineRunner>(run: Run<X>, at_end: AtEnd) {
    match at_end {
        AtEnd::GiveBack => mem::drop(run),
        AtEnd::Leave => mem::forget(run),
    }
}
