//! What comes to a site.
ghost use Rattle.std.specs.Prelude.{◌≡◌, ◌<◌, ℕ, false, is_some, length, IfOk, OnOk, OnErr};
ghost use Rattle.std.specs.List.{list_all};
ghost use Rattle.packet_code.specs.declared.packet.Packet.TheVariants.{Carry, Mark};
ghost use Rattle.packet_code.specs.Limits.{IsPacket};
ghost use Rattle.site_state.specs.State.{sender_of, destination_of};
ghost use Rattle.site_state.specs.Arrivals.{NamesOthers};
ghost use Rattle.site_state.specs.Streams.{stream_to};
ghost use Rattle.site_state.specs.Packets.{is_known_past, is_foreign, site_accept, accept_answer};
ghost use Rattle.site_engine.specs.SiteInvariant.{IsSized};

use super::Site;
use conflict_detect::fits;
use packet_code::Packet;
use rep_calls::{PastEntry, Txn};
use rep_lists::{Items, NoMemory};
use rep_schema::RowStore;
use rep_values::SiteName;
use schema_names::is_master_site;
use sender_inbox::{inbox_from, place_from};
use site_state::{Accepted, Arrival};

impl<R: RowStore> Site<R> {
    /// Whether a site is a sender.
    fn is_sender(&self, site: &SiteName) -> bool
        ensures { result ≡ is_some (sender_of site.now self.now.senders) }
    {
        match inbox_from(&self.inboxes, site) {
            Some(_) => true,
            None => false,
        }
    }

    /// Whether a site is a destination.
    fn is_destination(&self, site: &SiteName) -> bool
        ensures { result ≡ is_some (destination_of site.now self.now.destinations) }
    {
        self.outbox.is_destination(site)
    }

    /// The last position of the stream to a site, 0 where nothing was queued for it.
    pub fn last_sent(&self, to: &SiteName) -> u64
        ensures { result ≡ length (stream_to to.now self.now) }
    {
        self.outbox.last(to)
    }

    /// Whether a past names this site, or a master among the senders.
    fn is_known_past(&self, seen: &PastEntry) -> bool
        ensures { result ≡ is_known_past self.now seen.now }
    {
        seen.origin.0.is_same(&self.here.site.0)
            || (is_master_site(self.store.schema(), &seen.origin) && self.is_sender(&seen.origin))
    }

    /// Whether each past names this site, or a master among the senders.
    fn are_known_pasts(&self, past: &[PastEntry]) -> bool
        ensures { result ≡ list_all (is_known_past self.now) past.now }
    {
        past.iter().all(|seen| self.is_known_past(seen))
    }

    /// Whether a transaction isn't for this site, is from no sender, doesn't fit, or has a past of an unknown site.
    fn is_foreign_carry(
        &self,
        from: &SiteName,
        to: &SiteName,
        past: &[PastEntry],
        txn: &Txn,
    ) -> bool
        ensures { (number position dep : ℕ) → result ≡ is_foreign (Carry from.now to.now number position dep past.now txn.now) self.now }
    {
        !to.0.is_same(&self.here.site.0)
            || !self.is_sender(from)
            || !fits(self.store.schema(), txn)
            || !self.are_known_pasts(past)
    }

    /// Whether a mark isn't for this site, is from no destination, or is above the last position.
    fn is_foreign_mark(&self, from: &SiteName, to: &SiteName, mark: u64) -> bool
        ensures { result ≡ is_foreign (Mark from.now to.now mark) self.now }
    {
        !to.0.is_same(&self.here.site.0)
            || !self.is_destination(from)
            || self.last_sent(from) < mark
    }

    /// Takes in what a sender sent, where its position hadn't arrived.
    fn take_in(
        &mut self,
        from: &SiteName,
        to: &SiteName,
        arrival: Arrival,
    ) -> Result<Accepted, NoMemory>
        requires known { is_foreign (Carry from.now to.now arrival.number arrival.position arrival.dep arrival.past arrival.txn) self.old ≡ false }
        requires earlier { arrival.dep < arrival.position }
        requires others { NamesOthers from.now arrival.past }
        requires sized { IsSized arrival.txn }
        ensures ok { OnOk result (self.new ≡ site_accept (Carry from.now to.now arrival.number arrival.position arrival.dep arrival.past arrival.txn) self.old) }
        ensures answer { IfOk result (λ answer. answer ≡ accept_answer (Carry from.now to.now arrival.number arrival.position arrival.dep arrival.past arrival.txn) self.old) }
        ensures err { OnErr result (self.new ≡ self.old) }
    {
        let Some(place) = place_from(&self.inboxes, from) else {
            unreachable!()
        };
        let inbox = &mut self.inboxes[place];
        let None = inbox.find(arrival.position) else {
            return Ok(Accepted::Repeat);
        };
        inbox.accept(arrival)?;
        Ok(Accepted::New)
    }

    /// Takes in a packet. It is foreign, and changes nothing, where it isn't for this site, is from no sender or, as a mark,
    /// from no destination, has a call that doesn't fit the schema or a past of an unknown site, or is a mark above the last
    /// position. A position that arrived before changes nothing either. The packet is within all limits, as each is that was
    /// unsealed or decoded.
    pub fn accept(&mut self, packet: Packet) -> Result<Accepted, NoMemory>
        requires { IsPacket packet }
        ensures ok { OnOk result (self.new ≡ site_accept packet self.old) }
        ensures answer { IfOk result (λ answer. answer ≡ accept_answer packet self.old) }
        ensures err { OnErr result (self.new ≡ self.old) }
    {
        match packet {
            Packet::Carry {
                from,
                to,
                number,
                position,
                dep,
                past,
                txn,
            } => {
                if self.is_foreign_carry(&from, &to, past.as_slice(), &txn) {
                    return Ok(Accepted::Foreign);
                }
                let arrival = Arrival {
                    position,
                    number,
                    dep,
                    past,
                    txn,
                };
                let accepted = self.take_in(&from, &to, arrival)?;
                Ok(accepted)
            }
            Packet::Mark { from, to, mark } => {
                if self.is_foreign_mark(&from, &to, mark) {
                    return Ok(Accepted::Foreign);
                }
                self.outbox.acknowledge(&from, mark);
                Ok(Accepted::Marked)
            }
        }
    }
}
