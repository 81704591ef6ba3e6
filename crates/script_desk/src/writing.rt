//! What is written of what was made.
ghost use Rattle.std.specs.Prelude.{◌≡◌, ◌⊎◌};
ghost use Rattle.rep_io.specs.Faults.{Rose};

use rep_io::{Sink, offer};
use script_drive::Status;

/// Writes these bytes, and answers this status, or that they can't be written.
pub fn written<K: Sink>(sink: &mut K, bytes: &[u8], status: Status) -> Status
    ensures ended { (result ≡ status) ⊎ (result ≡ Status.WriteFault) }
    ensures write { result ≡ Status.WriteFault → (status ≡ Status.WriteFault) ⊎ Rose (K.faults sink.old) (K.faults sink.new) }
{
    match offer(sink, bytes) {
        Ok(()) => status,
        Err(_) => Status::WriteFault,
    }
}
