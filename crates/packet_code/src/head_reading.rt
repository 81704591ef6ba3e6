//! The head of a packet, read from its bytes. It takes no memory.
ghost use Rattle.std.specs.Prelude.{◌≡◌, IfErr};
ghost use Rattle.packet_code.specs.declared.stop.Stop.TheVariants.{Form};
ghost use Rattle.packet_code.specs.Reading.{byte, behind};
ghost use Rattle.packet_code.specs.Heads.{carry_position, position_of_kind, position_in_front, position_in};
ghost use Rattle.packet_code.specs.Readers.{Reads, Gives};

use crate::reader::Reader;
use crate::stop::Stop;
use crate::stream_position::StreamPosition;
use crate::value_reading::site;

/// Who sent a transaction, and its position, as far as that stands in front.
fn carry_position(bytes: &mut Reader<'_>) -> Result<Option<StreamPosition>, Stop>
    ensures read { Reads carry_position result bytes.old bytes.new }
    ensures form { IfErr result (λ stop. stop ≡ Form) }
{
    let from = site(bytes)?;
    let _to = bytes.sized()?;
    let _number = bytes.u64_number()?;
    let position = bytes.u64_number()?;
    Ok(Some(StreamPosition { from, position }))
}

/// What stands behind the version.
#[tactic(auto, using(crate::proofs::Behind::read_behind))]
fn sent_position(bytes: &mut Reader<'_>) -> Result<Option<StreamPosition>, Stop>
    ensures read { Reads (behind byte position_of_kind) result bytes.old bytes.new }
    ensures form { IfErr result (λ stop. stop ≡ Form) }
{
    let kind = bytes.byte()?;
    match kind {
        1 => carry_position(bytes),
        _ => Ok(None),
    }
}

/// The version, and what is sent behind it.
#[tactic(auto, using(crate::proofs::Behind::read_behind))]
fn position_in_front(bytes: &mut Reader<'_>) -> Result<Option<StreamPosition>, Stop>
    ensures read { Reads position_in_front result bytes.old bytes.new }
    ensures form { IfErr result (λ stop. stop ≡ Form) }
{
    let _version = bytes.byte()?;
    sent_position(bytes)
}

/// Who sent the transaction that the bytes carry, and its position in the stream; None where they carry a mark.
pub(crate) fn position_in(bytes: &[u8]) -> Result<Option<StreamPosition>, Stop>
    ensures gives { Gives (position_in bytes.now) result }
    ensures form { IfErr result (λ stop. stop ≡ Form) }
{
    position_in_front(&mut Reader::of(bytes))
}
