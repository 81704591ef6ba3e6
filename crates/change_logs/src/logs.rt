//! The logs of a site.
ghost use Rattle.std.specs.Prelude.{◌≡◌, ℕ, ◌+◌, ◌≤◌, length, map, option_map, option_copied, IsOk, IfOk, OnOk};
ghost use Rattle.std.specs.List.{AllByRecursion};
ghost use Rattle.rep_schema.specs.Changes.{ChangeFits};
ghost use Rattle.change_logs.specs.LogState.{new_log, purged_where};
ghost use Rattle.change_logs.specs.Noting.{log_of, keys_in, logged_in};
ghost use Rattle.change_logs.specs.RoomyNotes.{log_in, logs_in, log_spares};
ghost use Rattle.rep_lists.specs.Counting.{least};

use crate::Log;
use crate::changed::note_in;
use rep_lists::NoMemory;
use rep_schema::{Change, Schema};
use std::alloc::Global;

/// A log of each of these tables, without a key.
pub(crate) fn new_logs(alloc: Global, tables: &[u32]) -> Result<Vec<Log>, NoMemory>
    ensures { IfOk result (λ logs. logs_in logs.items ≡ map new_log tables.now) }
{
    let mut logs = Vec::with_capacity(alloc, tables.len())?;
    for table in tables {
        logs.push(Log::make(alloc, *table))?;
    }
    Ok(logs)
}

/// Takes the room to note so many keys in each log.
pub(crate) fn reserve_each(logs: &mut [Log], keys: u64) -> Result<(), NoMemory>
    ensures ok { OnOk result (keys ≤ least keys (log_spares logs.new)) }
    ensures succeeds { keys ≤ least keys (log_spares logs.old) → IsOk result }
    ensures logs { logs_in logs.new ≡ logs_in logs.old }
    ensures room { (free : ℕ) → least free (log_spares logs.old) ≤ least free (log_spares logs.new) }
{
    for log in logs.iter_mut() {
        log.reserve(keys)?;
    }
    Ok(())
}

/// Notes changed rows in the logs of their tables.
pub(crate) fn note_each(logs: &mut [Log], schema: &Schema, changes: &[Change], moment: u64)
    requires fits { AllByRecursion (ChangeFits schema.now) changes.now }
    requires room { length changes.now ≤ least (length changes.now) (log_spares logs.old) }
    ensures logs { logs_in logs.new ≡ map (logged_in schema.now moment changes.now) (logs_in logs.old) }
    ensures room { (free : ℕ) → least free (log_spares logs.old) ≤ least free (log_spares logs.new) + length changes.now }
{
    for log in logs.iter_mut() {
        note_in(log, schema, changes, moment);
    }
}

/// The log of a table.
pub(crate) fn find(logs: &[Log], table: u32) -> Option<&Log>
    ensures { option_map log_in (option_copied result) ≡ log_of table (logs_in logs.now) }
{
    for log in logs {
        if log.table() == table {
            return Some(log);
        }
    }
    None
}

/// How many keys the log of a table has, 0 where it isn't logged.
pub(crate) fn key_count(logs: &[Log], table: u32) -> u64
    ensures { result ≡ length (keys_in (log_of table (logs_in logs.now))) }
{
    match find(logs, table) {
        Some(log) => log.len(),
        None => 0,
    }
}

/// Purges a log up to a moment, where it is the one of a table.
fn purge_where(log: &mut Log, table: u32, moment: u64)
    ensures log { log.new.log ≡ purged_where table moment log.old.log }
    ensures spare { log.old.spare ≤ log.new.spare }
{
    if log.table() == table {
        log.purge(moment);
    }
}

/// Purges the log of a table up to a moment.
pub(crate) fn purge_each(logs: &mut [Log], table: u32, moment: u64)
    ensures logs { logs_in logs.new ≡ map (purged_where table moment) (logs_in logs.old) }
    ensures room { (free : ℕ) → least free (log_spares logs.old) ≤ least free (log_spares logs.new) }
{
    for log in logs.iter_mut() {
        purge_where(log, table, moment);
    }
}
