//! What a site sends.
ghost use Rattle.std.specs.Prelude.{◌≡◌, IfOk};
ghost use Rattle.proc_state.specs.Packets.{proc_packet};

use super::ProcSite;
use packet_code::{Route, Sealed};
use rep_lists::NoMemory;
use rep_values::SiteName;
use std::alloc::Global;

impl ProcSite {
    /// The packet that carries the transaction at a position of the stream to a master, sealed; None exactly where no such
    /// position was given.
    pub fn packet(
        &self,
        alloc: Global,
        to: &SiteName,
        position: u64,
    ) -> Result<Option<Sealed>, NoMemory>
        ensures { IfOk result (λ packet. packet ≡ proc_packet to.now position self.now) }
    {
        let Some(sent) = self.outbox.entry(to, position) else {
            return Ok(None);
        };
        let route = Route {
            from: self.me,
            to: *to,
            number: sent.number,
            position,
            dep: sent.dep,
        };
        let sealed = Sealed::seal_body(alloc, &route, sent.body)?;
        Ok(Some(sealed))
    }
}
