//! Laws over all scripts. The functions are empty: their contracts are the laws.
ghost use Rattle.world_laws.specs.WellDeclared.{ScriptsDeclareWell};
ghost use Rattle.world_laws.specs.Starts.{MadeWorldsAreSnapshotStarts, MadeWorldsAreLogStarts};
ghost use Rattle.world_laws.specs.Sites.{EachCanRefresh, EachIsNotedSince, EachKeyComesOnce, SnapshotsHold};
ghost use Rattle.world_laws.specs.Refreshes.{RefreshesShowTheQuery};
ghost use Rattle.world_laws.specs.SnapshotScripts.{InScripts, InWorlds};

/// What a script declares is sound and has no snapshot twice, where it has declared a schema that breaks no rule.
pub fn scripts_declare_well()
    ensures { ScriptsDeclareWell }
{}

/// The world that Setup's end makes of that is where the laws of snapshots and of logs begin.
pub fn made_worlds_are_starts()
    ensures snapshots { MadeWorldsAreSnapshotStarts }
    ensures logs { MadeWorldsAreLogStarts }
{}

/// At each snapshot site of every world there is what a refresh from its master asks for, by the logs where none of them is
/// too young.
pub fn sites_of_worlds_can_refresh()
    ensures scripts { InScripts EachCanRefresh }
    ensures worlds { InWorlds EachCanRefresh }
{}

/// At each site of every world each pending key of a snapshot comes once, by whatever logs: they rise, and so do the keys that
/// the site changed since the snapshot's last refresh.
pub fn keys_of_worlds_come_once()
    ensures scripts { InScripts EachKeyComesOnce }
    ensures worlds { InWorlds EachKeyComesOnce }
{}

/// After a line that refreshes a site of a world, each of its snapshots is its query of the master's table of that moment,
/// and the master is as before.
pub fn refreshes_show_the_query()
    ensures scripts { InScripts RefreshesShowTheQuery }
    ensures worlds { InWorlds RefreshesShowTheQuery }
{}

/// In every world a key in a log of a master is noted behind the moment up to which the log is purged, and not behind the
/// present one.
pub fn logs_of_worlds_are_noted_since()
    ensures scripts { InScripts EachIsNotedSince }
    ensures worlds { InWorlds EachIsNotedSince }
{}

/// All of this holds of every world.
pub fn snapshots_hold()
    ensures scripts { InScripts SnapshotsHold }
    ensures worlds { InWorlds SnapshotsHold }
{}
