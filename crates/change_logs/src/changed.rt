//! The keys of changed rows.
ghost use Rattle.std.specs.Prelude.{◌≡◌, ◌+◌, ◌≤◌, length};
ghost use Rattle.std.specs.List.{AllByRecursion};
ghost use Rattle.rep_schema.specs.Changes.{ChangeFits};
ghost use Rattle.change_logs.specs.Noting.{key_changed, logged_in, touched_in};

use crate::{Log, Watched};
use rep_schema::{Change, Schema, key_in};
use rep_values::Key;

/// The key of a changed row.
fn key_changed(schema: &Schema, change: &Change) -> Key
    requires { ChangeFits schema.now change.now }
    ensures { result ≡ key_changed schema.now change.now }
{
    match (&change.before, &change.after) {
        (Some(row), _) | (None, Some(row)) => key_in(schema, change.table, row),
        (None, None) => unreachable!(),
    }
}

/// Notes the changed rows of a log's table in it.
pub(crate) fn note_in(log: &mut Log, schema: &Schema, changes: &[Change], moment: u64)
    requires fits { AllByRecursion (ChangeFits schema.now) changes.now }
    requires room { length changes.now ≤ log.old.spare }
    ensures log { log.new.log ≡ logged_in schema.now moment changes.now log.old.log }
    ensures spare { log.old.spare ≤ log.new.spare + length changes.now }
{
    for change in changes {
        if change.table == log.table() {
            log.note(key_changed(schema, change), moment);
        }
    }
}

/// Notes the changed rows of a snapshot's table at it.
pub(crate) fn touch_in(watched: &mut Watched, schema: &Schema, changes: &[Change])
    requires fits { AllByRecursion (ChangeFits schema.now) changes.now }
    requires room { length changes.now ≤ watched.old.spare }
    ensures snapshot { watched.new.snapshot ≡ touched_in schema.now changes.now watched.old.snapshot }
    ensures spare { watched.old.spare ≤ watched.new.spare + length changes.now }
{
    for change in changes {
        if change.table == watched.table() {
            watched.touch(key_changed(schema, change));
        }
    }
}
