//! Why calls are not made.
ghost use Rattle.std.specs.Prelude.{◌≡◌};
ghost use Rattle.proc_calls.specs.Stops.{stop_of, execute_stop_refusal};

use rep_lists::NoMemory;
use rep_values::{ApplyError, Refusal};
use thiserror::Error;

/// Why calls are not made. The site is as before.
#[derive(Clone, Copy, Debug, PartialEq, Eq, Error)]
pub enum ProcStop {
    /// The first call that fails, from 1, and why.
    #[error("call {call} fails: {error}")]
    Failed { call: u32, error: ApplyError },
    /// There is no memory.
    #[error("there is no memory")]
    Memory,
}

/// Why one call is not made.
#[derive(Clone, Copy)]
pub(crate) enum CallStop {
    Failed(ApplyError),
    Memory,
}

impl From<NoMemory> for CallStop {
    ghost use Rattle.std.specs.Prelude.{◌≡◌};
    ghost use Rattle.proc_calls.specs.declared.stop.CallStop.{CallStop};

    ghost from_gives = { λ _ stop. stop ≡ CallStop.Memory };

    fn from(_: NoMemory) -> CallStop {
        CallStop::Memory
    }
}

impl From<NoMemory> for ProcStop {
    ghost use Rattle.std.specs.Prelude.{◌≡◌};
    ghost use Rattle.proc_calls.specs.declared.stop.ProcStop.{ProcStop};

    ghost from_gives = { λ _ stop. stop ≡ ProcStop.Memory };

    fn from(_: NoMemory) -> ProcStop {
        ProcStop::Memory
    }
}

/// Why the calls stop at this one.
pub(crate) fn stop_at(call: u32, stop: CallStop) -> ProcStop
    ensures { result ≡ stop_of call stop }
{
    match stop {
        CallStop::Failed(error) => ProcStop::Failed { call, error },
        CallStop::Memory => ProcStop::Memory,
    }
}

/// Why an error isn't executed whose calls stop so.
pub(crate) fn refusal_of(stop: ProcStop) -> Refusal
    ensures { result ≡ execute_stop_refusal stop }
{
    match stop {
        ProcStop::Failed { error, .. } => Refusal::StillFails(error),
        ProcStop::Memory => Refusal::Memory,
    }
}
