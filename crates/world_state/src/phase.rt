//! Where a script stands.

/// Where a script stands: sites are declared, transactions are begun, or none is begun for a while.
#[derive(Clone, Copy, Debug, PartialEq, Eq)]
pub enum Phase {
    Setup,
    Running,
    Suspended,
}
