//! Laws over all scripts. A function calls the laws over events that its own stands on, and does nothing else.
ghost use Rattle.world_laws.specs.SnapshotScripts.{InScripts, InWorlds};
ghost use Rattle.convergent_worlds.specs.Convergence.{ConvergenceHolds, EachErrorIsExcused, EachGroupIsJoined, EachGroupIsJoinedSince, EachHasGreatest, MastersAgreeWhenQuiet, HoldsOfConvergence};
ghost use Rattle.world_laws.specs.AlikeWorlds.{MadeWorldsBeginAlike};

use convergence_laws::{
    groups_are_joined, groups_are_joined_since, latest_values_tell_apart, quiet_masters_agree,
    quiet_masters_agree_again,
};
use error_cause_laws::{
    errors_are_excused, missing_rows_are_of_inserts_in_error, missing_rows_are_of_lost_inserts,
};

/// In the world that Setup's end makes all masters have the same rows, filled in by the first of them.
pub fn made_worlds_begin_alike()
    ensures { MadeWorldsBeginAlike }
{}

/// In every world masters that are quiet have the same rows of every convergent table, where no error of a master's
/// transaction was dropped.
pub fn quiet_masters_of_worlds_agree()
    ensures scripts { InScripts MastersAgreeWhenQuiet }
    ensures worlds { InWorlds MastersAgreeWhenQuiet }
{
    quiet_masters_agree();
}

/// At each master of every world an error of a transaction on convergent tables is of a row that was never there, or of a sum
/// that leaves ±10^15; and so is an execution that is refused.
pub fn errors_of_worlds_are_excused()
    ensures scripts { InScripts EachErrorIsExcused }
    ensures worlds { InWorlds EachErrorIsExcused }
{
    errors_are_excused();
}

/// At each master of every world a group of a row of a convergent table is the join of its first values and of the parts
/// that were applied there, and of its values of any moment and the parts since.
pub fn groups_of_worlds_are_joined()
    ensures scripts { InScripts EachGroupIsJoined }
    ensures worlds { InWorlds EachGroupIsJoined }
    ensures scripts_since { InScripts EachGroupIsJoinedSince }
    ensures worlds_since { InWorlds EachGroupIsJoinedSince }
{
    groups_are_joined();
    groups_are_joined_since();
}

/// At each master of every world the latest values of a row tell apart: those of one stamp and level are the same, so that one of
/// them is the greatest.
pub fn latest_values_of_worlds_tell_apart()
    ensures scripts { InScripts EachHasGreatest }
    ensures worlds { InWorlds EachHasGreatest }
{
    latest_values_tell_apart();
}

/// All of this holds of every world, and more. At a master that was there from the start the insert of a missing row is in error
/// or was dropped there. Where masters are quiet and agree, they agree again behind whatever lines, where they are quiet then
/// and no error of a master's transaction was dropped since. And behind Setup a world has a history: events lead to it from a
/// start with masters alike. Since each moment of these at which masters were quiet and agreed it is as with lines; and at
/// each master, a joined one too, a missing row's insert is in error or was dropped there, or it was dropped before the master
/// joined.
pub fn convergence_holds()
    ensures scripts { InScripts ConvergenceHolds }
    ensures worlds { InWorlds ConvergenceHolds }
    ensures kept { HoldsOfConvergence }
{
    quiet_masters_agree();
    quiet_masters_agree_again();
    errors_are_excused();
    missing_rows_are_of_inserts_in_error();
    missing_rows_are_of_lost_inserts();
    groups_are_joined();
    groups_are_joined_since();
    latest_values_tell_apart();
}
