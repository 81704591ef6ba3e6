//! Why bytes give no packet.
ghost use Rattle.std.specs.Prelude.{◌≡◌};
ghost use Rattle.packet_code.specs.declared.stop.Stop.TheVariants.{Memory};

use rep_lists::NoMemory;
use std::alloc::{AllocError, AllocFailed};

/// They aren't the bytes of one, or want of memory.
#[derive(Clone, Copy)]
pub enum Stop {
    Form,
    Memory,
}

impl From<AllocError> for Stop {
    ghost from_gives = { λ _ stop. stop ≡ Memory };

    fn from(_: AllocError) -> Stop {
        Stop::Memory
    }
}

impl<T: Drop> From<AllocFailed<T>> for Stop {
    ghost from_gives = { λ _ stop. stop ≡ Memory };

    fn from(_: AllocFailed<T>) -> Stop {
        Stop::Memory
    }
}

impl From<NoMemory> for Stop {
    ghost from_gives = { λ _ stop. stop ≡ Memory };

    fn from(_: NoMemory) -> Stop {
        Stop::Memory
    }
}
