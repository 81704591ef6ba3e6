//! Calls that are made at a site.
ghost use Rattle.std.specs.Prelude.{◌≡◌, ◌≤◌, true, length, Ok, IfOk, IfErr, OnOk, OnErr};
ghost use Rattle.proc_state.specs.Calls.{calls_fit};
ghost use Rattle.proc_state.specs.Calling.{calls_here, proc_call, proc_call_answer};
ghost use Rattle.proc_calls.specs.Stops.{StopsAs};

use super::ProcSite;
use crate::applying::apply_txn;
use crate::carrying::carried_txn;
use crate::stop::ProcStop;
use proc_state::ProcCall;
use rep_schema::{RowStore, undo};
use rep_values::SiteName;
use site_state::Entry;
use std::alloc::Global;

impl ProcSite {
    /// Makes calls as one transaction, all of them or none: it is applied here, journalled, and queued for those of the other
    /// masters that are named. It answers the number under which it is queued. The calls fit the procedures and are 1 to 1,000.
    /// Where one of them fails, or there is no memory, all is as before.
    pub fn call(
        &mut self,
        alloc: Global,
        calls: &[ProcCall],
        to: &[SiteName],
    ) -> Result<u64, ProcStop>
        requires fit { calls_fit self.old.schema self.old.procedures calls.now ≡ true }
        requires some { 1 ≤ length calls.now }
        requires most { length calls.now ≤ 1000 }
        ensures ok { OnOk result (self.new ≡ proc_call calls.now to.now self.old) }
        ensures number { IfOk result (λ number. proc_call_answer calls.now self.old ≡ Ok number) }
        ensures err { IfErr result (StopsAs (calls_here calls.now self.old)) }
        ensures kept { OnErr result (self.new ≡ self.old) }
    {
        let txn = carried_txn(
            alloc,
            self.store.schema(),
            self.procedures.as_slice(),
            calls,
        )?;
        let queued = txn.share()?;
        self.journal.reserve(1)?;
        let changes = apply_txn(alloc, &mut self.store, self.procedures.as_slice(), &txn)?;
        let Ok(number) = self.outbox.push(alloc, queued, to) else {
            undo(&mut self.store, changes);
            return Err(ProcStop::Memory);
        };
        self.journal.push(Entry::Local { number, txn });
        Ok(number)
    }
}
