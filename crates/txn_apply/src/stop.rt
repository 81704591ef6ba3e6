//! Why a transaction is not applied.
ghost use Rattle.std.specs.Prelude.{◌≡◌};
ghost use Rattle.txn_apply.specs.Stops.{stop_of};

use rep_lists::NoMemory;
use rep_values::ApplyError;
use thiserror::Error;

/// Why a transaction is not applied. The store and the counters are as before.
#[derive(Clone, Copy, Debug, PartialEq, Eq, Error)]
pub enum ApplyStop {
    /// The first call that fails, from 1, and why.
    #[error("call {call} fails: {error}")]
    Failed { call: u32, error: ApplyError },
    /// There is no memory.
    #[error("there is no memory")]
    Memory,
}

/// Why one call is not applied.
#[derive(Clone, Copy)]
pub(crate) enum CallStop {
    Failed(ApplyError),
    Memory,
}

impl From<NoMemory> for CallStop {
    ghost use Rattle.std.specs.Prelude.{◌≡◌};
    ghost use Rattle.txn_apply.specs.declared.stop.CallStop.{CallStop};

    ghost from_gives = { λ _ stop. stop ≡ CallStop.Memory };

    fn from(_: NoMemory) -> CallStop {
        CallStop::Memory
    }
}

impl From<ApplyError> for CallStop {
    ghost use Rattle.std.specs.Prelude.{◌≡◌};
    ghost use Rattle.txn_apply.specs.declared.stop.CallStop.{CallStop};

    ghost from_gives = { λ error stop. stop ≡ CallStop.Failed error };

    fn from(error: ApplyError) -> CallStop {
        CallStop::Failed(error)
    }
}

/// Why the transaction stops at this call.
pub(crate) fn stop_at(call: u32, stop: CallStop) -> ApplyStop
    ensures { result ≡ stop_of call stop }
{
    match stop {
        CallStop::Failed(error) => ApplyStop::Failed { call, error },
        CallStop::Memory => ApplyStop::Memory,
    }
}

impl From<NoMemory> for ApplyStop {
    ghost use Rattle.std.specs.Prelude.{◌≡◌};
    ghost use Rattle.txn_apply.specs.declared.stop.ApplyStop.{ApplyStop};

    ghost from_gives = { λ _ stop. stop ≡ ApplyStop.Memory };

    fn from(_: NoMemory) -> ApplyStop {
        ApplyStop::Memory
    }
}
