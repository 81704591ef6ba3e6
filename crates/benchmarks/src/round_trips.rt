//! Packets that are packed and unpacked.
ghost use Rattle.std.specs.Prelude.{◌≡◌, IfOk};
ghost use Rattle.packet_code.specs.Limits.{IsPacket};

use packet_code::{Packet, Sealed};
use rep_lists::NoMemory;
use std::alloc::Global;

/// The packet that comes back from its bytes is the one that was packed.
fn round_trip(alloc: Global, packet: &Packet) -> Result<Packet, NoMemory>
    requires { IsPacket packet.now }
    ensures { IfOk result (λ back. back ≡ packet.now) }
{
    let sealed = Sealed::seal(alloc, packet)?;
    let back = sealed.unseal(alloc)?;
    Ok(back)
}

/// The packet that comes back from so many round trips.
pub fn round_trips(alloc: Global, packet: Packet, count: u64) -> Result<Packet, NoMemory>
    requires { IsPacket packet }
    ensures { IfOk result (λ back. back ≡ packet) }
{
    let mut packet = packet;
    for _ in 0..count {
        packet = round_trip(alloc, &packet)?;
    }
    Ok(packet)
}
