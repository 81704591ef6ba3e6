//! What is found where what arrived is looked at.

/// What a look at what arrived at a place tells.
pub(crate) enum Look {
    /// This position, which stands there, is ready.
    Ready(u64),
    /// The position there isn't ready.
    Waits,
    /// No position from there on is ready.
    Ends,
}

/// A position, and the place behind it in rising order.
#[derive(Clone, Copy)]
pub(crate) struct Placed {
    pub(crate) position: u64,
    pub(crate) behind: usize,
}
