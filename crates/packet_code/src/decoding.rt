//! Packets, read from bytes.
ghost use Rattle.std.specs.Prelude.{IfOk};
ghost use Rattle.packet_code.specs.Spelling.{IsDecoded};
ghost use Rattle.packet_code.specs.Reading.{byte, behind};
ghost use Rattle.packet_code.specs.Forms.{past_of_version, carry, mark, packet_of_kind, packet, packet_in};
ghost use Rattle.packet_code.specs.Readers.{Reads, Gives};

use crate::Packet;
use crate::call_reading::txn;
use crate::past_reading::past;
use crate::reader::Reader;
use crate::stop::Stop;
use crate::value_reading::site;
use crate::version::Version;
use rep_calls::PastEntry;
use rep_lists::{Items, NoMemory};
use rep_values::SiteName;
use std::alloc::Global;

/// What the sender had seen. The first version tells nothing of it.
fn past_of_version(
    alloc: Global,
    bytes: &mut Reader<'_>,
    version: Version,
    from: &SiteName,
) -> Result<Items<PastEntry>, Stop>
    ensures { Reads (past_of_version version from.now) result bytes.old bytes.new }
{
    match version {
        Version::First => Ok(Items::new(alloc)),
        Version::Second => past(alloc, bytes, from),
    }
}

/// A transaction on its way.
#[tactic(auto, unfolding(crate::specs::Forms::place))]
fn carry(alloc: Global, bytes: &mut Reader<'_>, version: Version) -> Result<Packet, Stop>
    ensures { Reads (carry version) result bytes.old bytes.new }
{
    let from = site(bytes)?;
    let to = site(bytes)?;
    let number = bytes.u64_number()?;
    let position = bytes.u64_number()?;
    let dep = bytes.u64_number()?;
    if number < 1 || dep >= position {
        return Err(Stop::Form);
    }
    let past = past_of_version(alloc, bytes, version, &from)?;
    let txn = txn(alloc, bytes)?;
    Ok(Packet::Carry {
        from,
        to,
        number,
        position,
        dep,
        past,
        txn,
    })
}

/// A mark.
fn mark(bytes: &mut Reader<'_>) -> Result<Packet, Stop>
    ensures { Reads mark result bytes.old bytes.new }
{
    let from = site(bytes)?;
    let to = site(bytes)?;
    let mark = bytes.u64_number()?;
    Ok(Packet::Mark { from, to, mark })
}

/// What stands behind the version.
#[tactic(auto, using(crate::proofs::Behind::read_behind))]
fn sent(alloc: Global, bytes: &mut Reader<'_>, version: Version) -> Result<Packet, Stop>
    ensures { Reads (behind byte (packet_of_kind version)) result bytes.old bytes.new }
{
    let kind = bytes.byte()?;
    match kind {
        1 => carry(alloc, bytes, version),
        2 => mark(bytes),
        _ => Err(Stop::Form),
    }
}

/// The version, and a packet behind it.
#[tactic(auto, unfolding(crate::specs::Forms::packet), using(crate::proofs::Behind::read_behind))]
fn packet(alloc: Global, bytes: &mut Reader<'_>) -> Result<Packet, Stop>
    ensures { Reads packet result bytes.old bytes.new }
{
    let version = bytes.byte()?;
    match version {
        1 => sent(alloc, bytes, Version::First),
        2 => sent(alloc, bytes, Version::Second),
        _ => Err(Stop::Form),
    }
}

/// A packet, and nothing behind it.
pub(crate) fn whole(alloc: Global, bytes: &[u8]) -> Result<Packet, Stop>
    ensures { Gives (packet_in bytes.now) result }
{
    let mut left = Reader::of(bytes);
    let packet = packet(alloc, &mut left)?;
    if !left.is_done() {
        return Err(Stop::Form);
    }
    Ok(packet)
}

/// The packet that the bytes are the encoding of, in version 1 or 2; None exactly where they are no packet's. It may want
/// memory.
pub fn decode(alloc: Global, bytes: &[u8]) -> Result<Option<Packet>, NoMemory>
    ensures { IfOk result (IsDecoded bytes.now) }
{
    match whole(alloc, bytes) {
        Ok(packet) => Ok(Some(packet)),
        Err(Stop::Form) => Ok(None),
        Err(Stop::Memory) => Err(NoMemory),
    }
}
