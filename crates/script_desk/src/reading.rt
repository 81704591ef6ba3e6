//! A whole source.
ghost use Rattle.std.specs.Prelude.{◌≡◌, ◌⊎◌, IfOk, IfErr};
ghost use Rattle.rep_io.specs.Faults.{Rose};
ghost use Rattle.script_desk.specs.Ends.{ReadsAll};

use rep_io::Source;
use script_drive::Status;
use std::alloc::Global;

/// The most bytes that are read at once.
const PIECE: usize = 4_096;

/// All bytes of a source, or why they can't be had: it failed, or there is no memory.
#[tactic(auto, using(crate::proofs::Pieces::reading_facts))]
pub fn read_whole<S: Source>(alloc: Global, source: &mut S) -> Result<Vec<u8>, Status>
    ensures whole { IfOk result (λ bytes. ReadsAll (S.left source.old) (S.left source.new) bytes.items) }
    ensures read { IfErr result (λ why. why ≡ Status.ReadFault → Rose (S.faults source.old) (S.faults source.new)) }
    ensures stops { IfErr result (λ why. (why ≡ Status.ReadFault) ⊎ (why ≡ Status.Memory)) }
{
    let mut bytes = Vec::new(alloc);
    let mut piece = [0u8; PIECE];
    for _ in 0..usize::MAX {
        let Ok(count) = source.read(&mut piece) else {
            return Err(Status::ReadFault);
        };
        if count == 0 {
            return Ok(bytes);
        }
        if bytes.extend_from_slice(&piece[..count]).is_err() {
            return Err(Status::Memory);
        }
    }
    Err(Status::Memory)
}
