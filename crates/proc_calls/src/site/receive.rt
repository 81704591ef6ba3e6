//! What comes to a site.
ghost use Rattle.std.specs.Prelude.{◌≡◌, ◌<◌, ℕ, [], false, is_some, IfOk, OnOk, OnErr};
ghost use Rattle.packet_code.specs.declared.packet.Packet.TheVariants.{Carry, Mark};
ghost use Rattle.packet_code.specs.Limits.{IsPacket, IsPlainTxn};
ghost use Rattle.site_state.specs.State.{sender_of};
ghost use Rattle.proc_state.specs.Packets.{is_foreign, proc_accept, proc_accept_answer};

use super::ProcSite;
use crate::carrying::is_carried;
use packet_code::Packet;
use rep_calls::{PastEntry, Txn};
use rep_lists::NoMemory;
use rep_schema::RowStore;
use rep_values::SiteName;
use sender_inbox::{inbox_from, place_from};
use site_state::{Accepted, Arrival};

impl ProcSite {
    /// Whether a site is one of the other masters.
    fn is_sender(&self, site: &SiteName) -> bool
        ensures { result ≡ is_some (sender_of site.now self.now.senders) }
    {
        match inbox_from(&self.inboxes, site) {
            Some(_) => true,
            None => false,
        }
    }

    /// Whether a transaction isn't for this site, is from no other master, has a call of no procedure's form, or has a past.
    fn is_foreign_carry(
        &self,
        from: &SiteName,
        to: &SiteName,
        past: &[PastEntry],
        txn: &Txn,
    ) -> bool
        ensures { (number position dep : ℕ) → result ≡ is_foreign (Carry from.now to.now number position dep past.now txn.now) self.now }
    {
        !to.is_same(&self.me)
            || !self.is_sender(from)
            || !is_carried(self.store.schema(), self.procedures.as_slice(), txn)
            || !past.is_empty()
    }

    /// Whether a mark isn't for this site, is from no other master, or is above the last position.
    fn is_foreign_mark(&self, from: &SiteName, to: &SiteName, mark: u64) -> bool
        ensures { result ≡ is_foreign (Mark from.now to.now mark) self.now }
    {
        !to.is_same(&self.me) || !self.outbox.is_master(from) || self.last(from) < mark
    }

    /// Takes in what another master sent, where its position hadn't arrived.
    fn take_in(
        &mut self,
        from: &SiteName,
        to: &SiteName,
        arrival: Arrival,
    ) -> Result<Accepted, NoMemory>
        requires known { is_foreign (Carry from.now to.now arrival.number arrival.position arrival.dep arrival.past arrival.txn) self.old ≡ false }
        requires earlier { arrival.dep < arrival.position }
        requires sized { IsPlainTxn arrival.txn }
        ensures ok { OnOk result (self.new ≡ proc_accept (Carry from.now to.now arrival.number arrival.position arrival.dep arrival.past arrival.txn) self.old) }
        ensures answer { IfOk result (λ answer. answer ≡ proc_accept_answer (Carry from.now to.now arrival.number arrival.position arrival.dep arrival.past arrival.txn) self.old) }
        ensures err { OnErr result (self.new ≡ self.old) }
    {
        let Some(place) = place_from(&self.inboxes, from) else {
            unreachable!()
        };
        let inbox = &mut self.inboxes[place];
        let None = inbox.find(arrival.position) else {
            return Ok(Accepted::Repeat);
        };
        inbox.accept(arrival)?;
        Ok(Accepted::New)
    }

    /// Takes in a packet. It is foreign, and changes nothing, where it isn't for this site, is from no other master, has a call of
    /// no procedure's form or a past, or is a mark above the last position. A position that arrived before changes nothing
    /// either. The packet is within all limits, as each is that was unsealed or decoded.
    pub fn accept(&mut self, packet: Packet) -> Result<Accepted, NoMemory>
        requires { IsPacket packet }
        ensures ok { OnOk result (self.new ≡ proc_accept packet self.old) }
        ensures answer { IfOk result (λ answer. answer ≡ proc_accept_answer packet self.old) }
        ensures err { OnErr result (self.new ≡ self.old) }
    {
        match packet {
            Packet::Carry {
                from,
                to,
                number,
                position,
                dep,
                past,
                txn,
            } => {
                if self.is_foreign_carry(&from, &to, past.as_slice(), &txn) {
                    return Ok(Accepted::Foreign);
                }
                let arrival = Arrival {
                    position,
                    number,
                    dep,
                    past,
                    txn,
                };
                let accepted = self.take_in(&from, &to, arrival)?;
                Ok(accepted)
            }
            Packet::Mark { from, to, mark } => {
                if self.is_foreign_mark(&from, &to, mark) {
                    return Ok(Accepted::Foreign);
                }
                self.outbox.acknowledge(&from, mark);
                Ok(Accepted::Marked)
            }
        }
    }
}
