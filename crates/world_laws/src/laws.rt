//! Laws over all scripts. The functions are empty: their contracts are the laws.
ghost use Rattle.world_laws.specs.Fitting.{EachCanPassInAnyOrder, EachFitsInWorlds};
ghost use Rattle.world_laws.specs.Scripts.{NothingWaitsInScripts, RefusedCommitsCloseTheBlock, RefusedLinesLeaveAllButTheBlock, RefusedSendsCloseTheBlock, ReportedPushesLeaveNothingReady, ScriptsHold};
ghost use Rattle.world_laws.specs.Simulation.{StepsAreEvents, StepsAreEventsHoweverRefused};
ghost use Rattle.world_laws.specs.Worlds.{NothingWaitsInWorlds, PushesLeaveNothingReady, WorldsHold};

/// Each line behind Setup is a list of events, beside changes of the phase, the block, the links and what is declared;
/// and so is what it does when it is refused, for whatever reason.
pub fn steps_are_events()
    ensures steps { StepsAreEvents }
    ensures refused { StepsAreEventsHoweverRefused }
{}

/// A line that is refused leaves all but the open block, and a commit or a send that is refused closes that.
pub fn refused_lines_leave_the_world()
    ensures kept { RefusedLinesLeaveAllButTheBlock }
    ensures closed { RefusedCommitsCloseTheBlock }
    ensures ended { RefusedSendsCloseTheBlock }
{}

/// The laws over events hold of the world of every script, of which each group and constraint names a column, as the form
/// of its line asks; and of the world that Setup's end makes of any schema that has its shape, and each that further lines
/// make of it. Among them is that what a site keeps for another one and what that one has of it is one stream.
pub fn worlds_hold()
    ensures scripts { ScriptsHold }
    ensures worlds { WorldsHold }
{}

/// Once a push is reported, no position of any sender is ready at the receiver.
pub fn pushes_leave_nothing_ready()
    ensures pushed { PushesLeaveNothingReady }
    ensures reported { ReportedPushesLeaveNothingReady }
{}

/// Where all that was queued for a site has arrived there and a pass of any sender finishes nothing, nothing waits there,
/// whatever the lines before were, joins among them.
pub fn nothing_waits_in_worlds()
    ensures scripts { NothingWaitsInScripts }
    ensures worlds { NothingWaitsInWorlds }
{}

/// Where what is declared is sound, tables stay tables at every site, and what is queued, arrived or journalled fits; and the
/// order in which all that is ready of a master is applied doesn't count.
pub fn sites_of_worlds_fit()
    ensures fits { EachFitsInWorlds }
    ensures any_order { EachCanPassInAnyOrder }
{}
