//! Letters to other offices, and letters from them.
ghost use Rattle.std.specs.Prelude.{◌≡◌, ◌+◌, ℕ, max, IfOk, IfErr, OnErr};
ghost use Rattle.site_state.specs.State.{acked_of};
ghost use Rattle.site_state.specs.Packets.{site_packet, mark_of};
ghost use Rattle.site_state.specs.Purges.{site_purge, purge_answer};
ghost use Rattle.office.specs.Letters.{Takes, TakeStops};

use crate::desk::Office;
use crate::error::OfficeError;
use crate::letter::Letter;
use packet_code::{Sealed, decode};
use rep_values::SiteName;
use site_state::Accepted;
use std::alloc::Global;

impl Office {
    /// The next letter to another office: that of the first position behind this one which the other hasn't acknowledged. None
    /// exactly where there is none.
    pub fn letter(
        &self,
        alloc: Global,
        to: &SiteName,
        behind: u64,
    ) -> Result<Option<Letter>, OfficeError>
        ensures ok { IfOk result (λ letter. letter ≡ site_packet to.now (max behind (acked_of to.now self.now) + 1) self.now) }
        ensures err { IfErr result (λ why. why ≡ OfficeError.Memory) }
    {
        let before = behind.max(self.acked(to));
        if before >= self.site.last_sent(to) {
            return Ok(None);
        }
        let Some(sealed) = self.site.packet(alloc, to, before + 1)? else {
            return Ok(None);
        };
        Ok(Some(Letter { sealed }))
    }

    /// The receipt for another office: how far this one has come with its letters.
    pub fn receipt(&self, alloc: Global, to: &SiteName) -> Result<Letter, OfficeError>
        ensures ok { IfOk result (λ letter. letter ≡ mark_of to.now self.now) }
        ensures err { IfErr result (λ why. why ≡ OfficeError.Memory) }
    {
        let sealed = Sealed::seal_mark(alloc, self.site.name(), to, self.site.mark(to))?;
        Ok(Letter { sealed })
    }

    /// Takes bytes in, whatever they are: a letter of another office to this one is kept until `work`, and a receipt
    /// counts at once. What came before, what is for another office or doesn't fit this one, and bytes that are no letter
    /// change nothing.
    pub fn take(&mut self, alloc: Global, bytes: &[u8]) -> Result<Accepted, OfficeError>
        ensures ok { IfOk result (Takes bytes.now self.old self.new) }
        ensures err { IfErr result (λ why. TakeStops why bytes.now) }
        ensures kept { OnErr result (self.new ≡ self.old) }
    {
        let Some(packet) = decode(alloc, bytes)? else {
            return Err(OfficeError::NoLetter);
        };
        let accepted = self.site.accept(packet)?;
        Ok(accepted)
    }

    /// Lets go of the transactions that every other office has acknowledged, and answers how many they are.
    pub fn purge(&mut self) -> u64
        ensures site { self.new ≡ site_purge self.old }
        ensures count { result ≡ purge_answer self.old }
    {
        self.site.purge()
    }
}
