//! The two refreshes of all snapshots.
ghost use Rattle.std.specs.Prelude.{◌≡◌, ℕ, ◌+◌, ◌≤◌, List, length, map, slice_index, Ok, IfOk, OnOk, OnErr};
ghost use Rattle.rep_schema.specs.Tables.{Rows, AreTables};
ghost use Rattle.rep_schema.specs.Changes.{HaveLed, LeadsTo, room_for};
ghost use Rattle.site_state.specs.Fits.{SchemaIsKeyed, SnapshotsApart, AreWithin};
ghost use Rattle.site_state.specs.Refreshes.{rows_shown, with_tables};
ghost use Rattle.change_logs.specs.Noting.{renewed};
ghost use Rattle.refreshes.specs.Refreshing.{OthersAreShown, AreGivenFor, pending_count, counted};
ghost use Rattle.refreshes.specs.Done.{all_changes};

use crate::done::undo_all;
use crate::{MasterView, by_keys, to_rows};
use change_logs::Notes;
use rep_lists::NoMemory;
use rep_schema::{Changes, RowStore, holds_tables};
use site_state::{RefreshCount, TableRows};
use std::alloc::Global;

/// Ends a refresh. Where its snapshots have their rows, they are renewed; else what was done is taken back. It answers what
/// was counted.
fn finish<R: RowStore>(
    store: &mut R,
    notes: &mut Notes,
    done: Vec<Changes>,
    counted: Result<RefreshCount, NoMemory>,
    moment: u64,
) -> Result<RefreshCount, NoMemory>
    requires led { HaveLed (R.schema store.old) (all_changes done.items) (R.tables store.old) }
    requires room { (t : ℕ) → room_for t (all_changes done.items) ≤ slice_index (R.spare store.old) t }
    ensures counted { result ≡ counted }
    ensures tables { OnOk counted (R.tables store.new ≡ R.tables store.old) }
    ensures renewed { OnOk counted (notes.new.snapshots ≡ map (renewed moment) notes.old.snapshots) }
    ensures earlier { OnErr counted ((earlier : List Rows) → AreTables (R.schema store.old) earlier
        → LeadsTo (R.schema store.old) (all_changes done.items) earlier (R.tables store.old) → R.tables store.new ≡ earlier) }
    ensures same { OnErr counted (notes.new.snapshots ≡ notes.old.snapshots) }
    ensures logs { notes.new.logs ≡ notes.old.logs }
    ensures schema { R.schema store.new ≡ R.schema store.old }
{
    match counted {
        Ok(count) => {
            notes.renew(moment);
            Ok(count)
        }
        Err(error) => {
            undo_all(store, done);
            Err(error)
        }
    }
}

/// Refreshes all snapshots of a store by the keys that are pending by their master's notes: each of them is looked up at
/// the master, whose moment is given. Under each other key their tables already show what the master has. Afterwards
/// each is the query of the master's table. Where there is no memory, store and notes are as before.
pub fn refresh_all_fast<R: RowStore, M: MasterView>(
    alloc: Global,
    store: &mut R,
    notes: &mut Notes,
    master: &mut M,
    logs: &Notes,
    moment: u64,
) -> Result<RefreshCount, NoMemory>
    requires keyed { SchemaIsKeyed (R.schema store.old) }
    requires within { AreWithin (R.schema store.old) notes.old.snapshots }
    requires apart { SnapshotsApart notes.old.snapshots }
    requires schema { M.schema master.old ≡ R.schema store.old }
    requires master { AreTables (R.schema store.old) (M.tables master.old) }
    requires others { OthersAreShown (R.schema store.old) logs.now.logs (M.tables master.old) notes.old.snapshots (R.tables store.old) }
    ensures tables { OnOk result (R.tables store.new ≡ with_tables (rows_shown (M.tables master.old) notes.old.snapshots) (R.tables store.old)) }
    ensures count { IfOk result (λ count. count ≡ counted (pending_count logs.now.logs notes.old.snapshots) (rows_shown (M.tables master.old) notes.old.snapshots)) }
    ensures renewed { OnOk result (notes.new.snapshots ≡ map (renewed moment) notes.old.snapshots) }
    ensures kept { OnErr result (R.tables store.new ≡ R.tables store.old) }
    ensures same { OnErr result (notes.new.snapshots ≡ notes.old.snapshots) }
    ensures logs { notes.new.logs ≡ notes.old.logs }
    ensures schema { R.schema store.new ≡ R.schema store.old }
    ensures master_schema { M.schema master.new ≡ M.schema master.old }
    ensures master_tables { M.tables master.new ≡ M.tables master.old }
    ensures rise { M.count master.old ≤ M.count master.new }
    ensures lookups { M.count master.new ≤ M.count master.old + pending_count logs.now.logs notes.old.snapshots }
{
    holds_tables(store);
    let mut done = Vec::with_capacity(alloc, notes.snapshot_count())?;
    let counted = by_keys::refresh_each(alloc, store, notes, master, logs, moment, &mut done);
    finish(store, notes, done, counted, moment)
}

/// Refreshes all snapshots of a store to rows that are given for the table of each with their master's moment. Where
/// there is no memory, store and notes are as before.
pub fn refresh_all<R: RowStore>(
    alloc: Global,
    store: &mut R,
    notes: &mut Notes,
    rows: &[TableRows],
    moment: u64,
) -> Result<RefreshCount, NoMemory>
    requires keyed { SchemaIsKeyed (R.schema store.old) }
    requires within { AreWithin (R.schema store.old) notes.old.snapshots }
    requires apart { SnapshotsApart notes.old.snapshots }
    requires rows { AreGivenFor (R.schema store.old) notes.old.snapshots rows.now }
    ensures tables { OnOk result (R.tables store.new ≡ with_tables rows.now (R.tables store.old)) }
    ensures count { IfOk result (λ count. count ≡ counted 0 rows.now) }
    ensures renewed { OnOk result (notes.new.snapshots ≡ map (renewed moment) notes.old.snapshots) }
    ensures kept { OnErr result (R.tables store.new ≡ R.tables store.old) }
    ensures same { OnErr result (notes.new.snapshots ≡ notes.old.snapshots) }
    ensures logs { notes.new.logs ≡ notes.old.logs }
    ensures schema { R.schema store.new ≡ R.schema store.old }
{
    holds_tables(store);
    let mut done = Vec::with_capacity(alloc, rows.len())?;
    let counted = to_rows::refresh_each(alloc, store, notes, rows, moment, &mut done);
    finish(store, notes, done, counted, moment)
}
