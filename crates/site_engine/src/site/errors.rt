//! Errors that stand are executed again, or dropped.
ghost use Rattle.std.specs.Prelude.{◌≡◌, ◌⊎◌, ◌+◌, ◌<◌, ◌^◌, Some, None, IfErr, OnOk, OnErr};
ghost use Rattle.rep_values.specs.declared.refusal.Refusal.TheVariants as refusal;
ghost use Rattle.site_state.specs.Errors.{site_execute, execute_refusal, site_drop, drop_refusal};
ghost use Rattle.site_engine.specs.Applying.{execute_stop_refusal};

use super::Site;
use crate::applying::apply_onward;
use crate::journal::reserve_noting;
use rep_schema::RowStore;
use rep_values::{Refusal, SiteName};
use site_state::Entry;
use std::alloc::Global;
use txn_apply::ApplyStop;

/// Why an error isn't executed.
fn refusal_of(stop: ApplyStop) -> Refusal
    ensures { result ≡ execute_stop_refusal stop }
{
    match stop {
        ApplyStop::Failed { error, .. } => Refusal::StillFails(error),
        ApplyStop::Memory => Refusal::Memory,
    }
}

impl<R: RowStore> Site<R> {
    /// Executes the error of a position again, on the rows of now: it no longer stands then, is journalled, and its changed
    /// rows are noted. Where none stands, where it still fails, or where there is no memory, all is as before.
    pub fn execute_error(
        &mut self,
        alloc: Global,
        origin: &SiteName,
        position: u64,
    ) -> Result<(), Refusal>
        requires { self.old.moment + 1 < 2 ^ 64 }
        ensures ok { OnOk result (self.new ≡ site_execute origin.now position self.old) }
        ensures executes { OnOk result (execute_refusal origin.now position self.old ≡ None) }
        ensures err { IfErr result (λ why. (why ≡ refusal.Memory) ⊎ (execute_refusal origin.now position self.old ≡ Some why)) }
        ensures kept { OnErr result (self.new ≡ self.old) }
    {
        self.arrivals_rise(origin);
        let Some(error) = self.errors.get(origin, position) else {
            return Err(Refusal::NoSuchError);
        };
        let txn = error.txn.share()?;
        let past = self.past_onward(alloc, origin)?;
        // The room comes first, so that what follows the transaction can't fail: a call changes one row at most.
        let rows = txn.calls.len() as u64;
        reserve_noting(&mut self.journal, &self.errors, &mut self.notes, rows)?;
        let done = match apply_onward(
            alloc,
            &mut self.store,
            &mut self.counters,
            &mut self.outbox,
            past,
            origin,
            &txn,
        ) {
            Ok(done) => done,
            Err(stop) => return Err(refusal_of(stop)),
        };
        let _ = self.errors.remove(origin, position);
        self.journal.push(Entry::Executed {
            origin: *origin,
            position,
            onward: done.onward,
            txn,
        });
        self.moment += 1;
        self.notes.note(
            self.store.schema(),
            done.changes.rows.as_slice(),
            self.moment,
        );
        Ok(())
    }

    /// Drops the error of a position: it no longer stands then, and is journalled. It takes no memory.
    pub fn delete_error(&mut self, origin: &SiteName, position: u64) -> Result<(), Refusal>
        requires { self.old.moment + 1 < 2 ^ 64 }
        ensures ok { OnOk result (self.new ≡ site_drop origin.now position self.old) }
        ensures drops { OnOk result (drop_refusal origin.now position self.old ≡ None) }
        ensures err { IfErr result (λ why. drop_refusal origin.now position self.old ≡ Some why) }
        ensures kept { OnErr result (self.new ≡ self.old) }
    {
        self.arrivals_rise(origin);
        let Some(_) = self.errors.get(origin, position) else {
            return Err(Refusal::NoSuchError);
        };
        let _ = self.errors.remove(origin, position);
        self.journal.push(Entry::Dropped {
            origin: *origin,
            position,
        });
        self.moment += 1;
        Ok(())
    }
}
