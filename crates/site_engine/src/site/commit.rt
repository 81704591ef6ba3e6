//! Blocks of statements at a site.
ghost use Rattle.std.specs.Prelude.{◌≡◌, ◌+◌, ◌<◌, ◌^◌, Ok, IfOk, IfErr, OnOk, OnErr};
ghost use Rattle.local_txn.specs.Running.{EndsAs};
ghost use Rattle.site_state.specs.Commits.{block_at, site_commit, commit_answer};

use super::Site;
use crate::committing::{Block, no_memory, run_block};
use crate::journal::reserve_noting;
use rep_calls::Statement;
use rep_schema::RowStore;
use site_state::Entry;
use std::alloc::Global;
use txn_effects::LocalStop;

impl<R: RowStore> Site<R> {
    /// Commits a block of statements as one transaction of the site's own: it is queued and journalled, and its changed rows
    /// are noted. It answers the number under which it is queued, 0 where no row changed and nothing happened. Where a
    /// statement is refused, or there is no memory, all is as before.
    pub fn commit(&mut self, alloc: Global, statements: &[Statement]) -> Result<u64, LocalStop>
        requires { self.old.moment + 1 < 2 ^ 64 }
        ensures ok { OnOk result (self.new ≡ site_commit statements.now self.old) }
        ensures number { IfOk result (λ number. commit_answer statements.now self.old ≡ Ok number) }
        ensures err { IfErr result (EndsAs (block_at statements.now self.old)) }
        ensures kept { OnErr result (self.new ≡ self.old) }
    {
        let Ok(past) = self.past(alloc) else {
            return Err(no_memory());
        };
        // The room comes first, so that what follows the block can't fail: a statement changes one row at most.
        let rows = statements.len().min(1_000) as u64;
        let Ok(()) = reserve_noting(&mut self.journal, &self.errors, &mut self.notes, rows) else {
            return Err(no_memory());
        };
        let block = run_block(
            alloc,
            &mut self.store,
            &self.here,
            &self.stamps,
            &mut self.outbox,
            past,
            statements,
        )?;
        let Block {
            changes,
            stamps,
            queued,
        } = block;
        let Some(queued) = queued else {
            return Ok(0);
        };
        let number = queued.number;
        self.journal.push(Entry::Local {
            number,
            txn: queued.txn,
        });
        self.stamps = stamps;
        self.moment += 1;
        self.notes
            .note(self.store.schema(), changes.rows.as_slice(), self.moment);
        Ok(number)
    }
}
