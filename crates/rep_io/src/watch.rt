//! Who is told of work that goes on beside other work.

/// Is told of each transaction that an applier is about to put in. It changes nothing.
pub trait Watch: Sync {
    /// An applier, from 0, has a position to put in, and is about to wait for its turn. It holds no lock meanwhile.
    fn working(&self, applier: u32, position: u64);
}

/// Watches nothing.
#[derive(Clone, Copy, Drop)]
pub struct Still;

impl Watch for Still {
    fn working(&self, _applier: u32, _position: u64) {}
}
