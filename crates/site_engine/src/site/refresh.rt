//! A snapshot site gets its rows anew from its master.
ghost use Rattle.std.specs.Prelude.{◌≡◌, ◌+◌, ◌≤◌, false, IfOk, OnOk, OnErr};
ghost use Rattle.rep_schema.specs.Tables.{AreTables};
ghost use Rattle.site_state.specs.Contents.{tables_of};
ghost use Rattle.site_state.specs.Refreshes.{rows_shown, site_refresh, refresh_fast_answer, refresh_complete_answer};
ghost use Rattle.refreshes.specs.Refreshing.{OthersAreShown, AreGivenFor, pending_count};

use super::Site;
use change_logs::Notes;
use refreshes::{MasterView, refresh_all, refresh_all_fast};
use rep_lists::NoMemory;
use rep_schema::{RowStore, holds_tables};
use sender_inbox::reserve_beside;
use site_state::{Entry, RefreshCount, TableRows};
use std::alloc::Global;
use std::snapshot::Snapshot;
use unique_resolve::Counters;

impl<R: RowStore> Site<R> {
    /// Refreshes all snapshots by the keys that are pending by their master's notes, each of which is looked up at the
    /// master, whose moment is given. Under each other key the site's tables already show what the master has. Afterwards
    /// each snapshot is its query of the master's table, and the site begins anew with these rows. Where there is no memory,
    /// all is as before.
    pub fn refresh_fast_from<M: MasterView>(
        &mut self,
        alloc: Global,
        master: &mut M,
        logs: &Notes,
        moment: u64,
    ) -> Result<RefreshCount, NoMemory>
        requires snapshot_site { self.old.here.is_master ≡ false }
        requires schema { M.schema master.old ≡ self.old.schema }
        requires master { AreTables self.old.schema (M.tables master.old) }
        requires others { OthersAreShown self.old.schema logs.now.logs (M.tables master.old) self.old.snapshots (tables_of self.old) }
        ensures ok { OnOk result (self.new ≡ site_refresh (rows_shown (M.tables master.old) self.old.snapshots) moment self.old) }
        ensures count { IfOk result (λ count. count ≡ refresh_fast_answer logs.now.logs (rows_shown (M.tables master.old) self.old.snapshots) self.old) }
        ensures kept { OnErr result (self.new ≡ self.old) }
        ensures master_schema { M.schema master.new ≡ M.schema master.old }
        ensures master_tables { M.tables master.new ≡ M.tables master.old }
        ensures rise { M.count master.old ≤ M.count master.new }
        ensures lookups { M.count master.new ≤ M.count master.old + pending_count logs.now.logs self.old.snapshots }
    {
        // The room and the counters come first, so that what follows the refresh can't fail.
        reserve_beside(&mut self.journal, &self.errors, 1)?;
        let counters = Counters::make(alloc, self.store.schema())?;
        let count = refresh_all_fast(
            alloc,
            &mut self.store,
            &mut self.notes,
            master,
            logs,
            moment,
        )?;
        holds_tables(&self.store);
        self.base = Snapshot::of(&self.store);
        self.counters = counters;
        self.journal.push(Entry::Refreshed { moment });
        Ok(count)
    }

    /// Refreshes all snapshots to rows that are given for the table of each with their master's moment, and the site begins
    /// anew with them. Where there is no memory, all is as before.
    pub fn refresh_complete_from(
        &mut self,
        alloc: Global,
        rows: &[TableRows],
        moment: u64,
    ) -> Result<RefreshCount, NoMemory>
        requires snapshot_site { self.old.here.is_master ≡ false }
        requires rows { AreGivenFor self.old.schema self.old.snapshots rows.now }
        ensures ok { OnOk result (self.new ≡ site_refresh rows.now moment self.old) }
        ensures count { IfOk result (λ count. count ≡ refresh_complete_answer rows.now) }
        ensures kept { OnErr result (self.new ≡ self.old) }
    {
        // The room and the counters come first, so that what follows the refresh can't fail.
        reserve_beside(&mut self.journal, &self.errors, 1)?;
        let counters = Counters::make(alloc, self.store.schema())?;
        let count = refresh_all(alloc, &mut self.store, &mut self.notes, rows, moment)?;
        holds_tables(&self.store);
        self.base = Snapshot::of(&self.store);
        self.counters = counters;
        self.journal.push(Entry::Refreshed { moment });
        Ok(count)
    }
}
