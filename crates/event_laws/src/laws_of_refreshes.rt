//! Laws over every list of events, and of a refresh by itself. The functions are empty: their contracts are the laws.
ghost use Rattle.event_laws.specs.RefreshLaws.{FastIsComplete, OtherKeysAreTheMasters, PendingParentsRise, RefreshedIsTheRule, SnapshotKeysRise};
ghost use Rattle.event_laws.specs.Logs.{NotedAreAbovePurged};
ghost use Rattle.event_laws.specs.Refreshed.{RefreshedTablesAreTheRules};

/// Under each up-to-date key, which isn't pending and under which the master's row has no pending parent, a snapshot's table has
/// what the snapshot shows of the master's row, unless a log that it goes by was purged above its mark.
pub fn other_keys_are_the_masters()
    ensures { OtherKeysAreTheMasters }
{}

/// So a refresh that looks up the pending keys and the rows of the pending parents alone makes the rows that one makes which
/// goes by no log.
pub fn fast_is_complete()
    ensures { FastIsComplete }
{}

/// Each of a snapshot's pending keys comes once: they rise, and so do the keys that its site changed since its last refresh.
pub fn snapshot_keys_rise()
    ensures { SnapshotKeysRise }
{}

/// Each of a snapshot's pending parents comes once too, and the table of its parents is there.
pub fn pending_parents_rise()
    ensures { PendingParentsRise }
{}

/// After a refresh each snapshot's table has the rows that it picks of the master's tables of that moment.
pub fn refreshed_is_the_rule()
    ensures { RefreshedIsTheRule }
{}

/// So it is at every site that gets the rows which its snapshots pick of a master's tables, whatever happened before: its other
/// tables stay, and nothing is touched. Clause `ok` of `Site::refresh_fast_from` says that the site becomes this one where no
/// snapshot has a parent; of `Site::refresh_complete_from` it does where these rows are the given ones.
pub fn refreshed_tables_are_the_rules()
    ensures { RefreshedTablesAreTheRules }
{}

/// A key in a log of a master is noted behind the moment up to which the log is purged, and not behind the present one.
pub fn noted_are_above_purged()
    ensures { NotedAreAbovePurged }
{}
