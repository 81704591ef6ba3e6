//! What a site sends.
ghost use Rattle.std.specs.Prelude.{◌≡◌, IfOk};
ghost use Rattle.site_state.specs.Packets.{site_packet};
ghost use Rattle.site_state.specs.Purges.{site_purge, purge_answer};

use super::Site;
use packet_code::{Route, Sealed};
use rep_laws::fitting_transactions_can_be_carried;
use rep_lists::NoMemory;
use rep_schema::RowStore;
use rep_values::SiteName;
use std::alloc::Global;

impl<R: RowStore> Site<R> {
    /// The packet that carries the transaction at a position of the stream to a destination, sealed; None exactly where no
    /// such position was given or it is purged.
    pub fn packet(
        &self,
        alloc: Global,
        to: &SiteName,
        position: u64,
    ) -> Result<Option<Sealed>, NoMemory>
        ensures { IfOk result (λ packet. packet ≡ site_packet to.now position self.now) }
    {
        let Some(sent) = self.outbox.entry(to, position) else {
            return Ok(None);
        };
        // What was queued is within the limits of a packet.
        fitting_transactions_can_be_carried();
        let route = Route {
            from: self.here.site,
            to: *to,
            number: sent.number,
            position,
            dep: sent.dep,
        };
        let sealed = Sealed::seal_body(alloc, &route, sent.body)?;
        Ok(Some(sealed))
    }

    /// Lets go of the queued transactions that every destination that has them has acknowledged, and answers how many they
    /// are.
    pub fn purge(&mut self) -> u64
        ensures site { self.new ≡ site_purge self.old }
        ensures count { result ≡ purge_answer self.old }
    {
        self.outbox.purge()
    }
}
