//! What becomes of a packet.

/// What becomes of a packet that is sent: it is on the way once, nowhere, on the way twice, or held until it is released.
#[derive(Clone, Copy, Debug, PartialEq, Eq)]
pub enum Fate {
    Pass,
    Lose,
    Twice,
    Late,
}
