//! The versions of the bytes of packets.

/// The first version tells no past. The second is the one that is written.
#[derive(Clone, Copy)]
pub(crate) enum Version {
    First,
    Second,
}
