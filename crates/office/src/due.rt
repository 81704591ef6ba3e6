//! What other offices haven't acknowledged.
ghost use Rattle.std.specs.Prelude.{◌≡◌, IfOk, IfErr};
ghost use Rattle.site_state.specs.State.{acked_of};
ghost use Rattle.office.specs.Owed.{due_to, all_due};

use crate::desk::Office;
use crate::error::OfficeError;
use rep_values::SiteName;
use schema_sites::destinations_of;
use std::alloc::Global;

/// The letters to an office that it hasn't acknowledged: those behind one position, up to the last.
#[derive(Clone, Copy, Debug, PartialEq, Eq)]
pub struct Due {
    pub to: SiteName,
    pub acked: u64,
    pub last: u64,
}

impl Office {
    /// How far another office has acknowledged what was sent to it.
    pub(crate) fn acked(&self, to: &SiteName) -> u64
        ensures { result ≡ acked_of to.now self.now }
    {
        self.site.queue().acked(to)
    }

    /// What another office hasn't acknowledged.
    pub fn due_to(&self, to: &SiteName) -> Due
        ensures { result ≡ due_to self.now to.now }
    {
        Due {
            to: *to,
            acked: self.acked(to),
            last: self.site.last_sent(to),
        }
    }

    /// What the other offices haven't acknowledged, as they are declared, without those that have acknowledged all.
    pub fn due(&self, alloc: Global) -> Result<Vec<Due>, OfficeError>
        ensures ok { IfOk result (λ due. due.items ≡ all_due self.now) }
        ensures err { IfErr result (λ why. why ≡ OfficeError.Memory) }
    {
        let names = destinations_of(alloc, self.schema(), self.name())?;
        let mut due = Vec::new(alloc);
        for to in names.as_slice() {
            let owed = self.due_to(to);
            if owed.acked < owed.last {
                due.push(owed)?;
            }
        }
        Ok(due)
    }
}
