//! Errors that stand are executed again.
ghost use Rattle.std.specs.Prelude.{◌≡◌, ◌⊎◌, Some, None, IfErr, OnOk, OnErr};
ghost use Rattle.rep_values.specs.declared.refusal.Refusal.TheVariants as refusal;
ghost use Rattle.proc_state.specs.Errors.{proc_execute, proc_execute_refusal};

use super::ProcSite;
use crate::applying::apply_txn;
use crate::stop::refusal_of;
use rep_values::{Refusal, SiteName};
use site_state::Entry;
use std::alloc::Global;

impl ProcSite {
    /// Executes the error of a position again, on the rows of now: it no longer stands then, and is journalled. Where none stands,
    /// where it still fails, or where there is no memory, all is as before.
    pub fn execute_error(
        &mut self,
        alloc: Global,
        origin: &SiteName,
        position: u64,
    ) -> Result<(), Refusal>
        ensures ok { OnOk result (self.new ≡ proc_execute origin.now position self.old) }
        ensures executes { OnOk result (proc_execute_refusal origin.now position self.old ≡ None) }
        ensures err { IfErr result (λ why. (why ≡ refusal.Memory) ⊎ (proc_execute_refusal origin.now position self.old ≡ Some why)) }
        ensures kept { OnErr result (self.new ≡ self.old) }
    {
        self.arrivals_rise(origin);
        let Some(error) = self.errors.get(origin, position) else {
            return Err(Refusal::NoSuchError);
        };
        let txn = error.txn.share()?;
        // The room comes first, so that what follows the transaction can't fail.
        self.journal.reserve(1)?;
        if let Err(stop) = apply_txn(alloc, &mut self.store, self.procedures.as_slice(), &txn) {
            return Err(refusal_of(stop));
        }
        let _ = self.errors.remove(origin, position);
        self.journal.push(Entry::Executed {
            origin: *origin,
            position,
            onward: 0,
            txn,
        });
        Ok(())
    }
}
