//! Laws of reports, and of masters that are lent out. A function calls the law that its own stands on, and does nothing else.
ghost use Rattle.world_run.specs.Lent.{LentMastersMayComeBack};
ghost use Rattle.world_run.specs.Scripts.{JoinsOfScriptsTakeOver, LinesOfScriptsHold, PushesOfCallsLeaveNothingReady, PushesOfScriptsLeaveNothingReady, RefreshesOfScriptsShowTheQuery, ReportedProceduresHold, ReportedSnapshotsHold, ReportedWorldsConverge, ReportedWorldsHold};

use convergent_worlds::convergence_holds;

/// The laws over events hold of the world behind whatever lines of whatever script: of each world that a report tells of; and so
/// do those of snapshots, of convergence and of procedures. Once a push is reported, be it one of calls, no position of any sender
/// is ready at the receiver; once a refresh is, each snapshot of the site is its query of its master's table; once a join is, the
/// late master has taken over from the master that the line names. So it is with each line of every script.
pub fn reported_worlds_hold()
    ensures worlds { ReportedWorldsHold }
    ensures snapshots { ReportedSnapshotsHold }
    ensures convergence { ReportedWorldsConverge }
    ensures procedures { ReportedProceduresHold }
    ensures pushed { PushesOfScriptsLeaveNothingReady }
    ensures calls_pushed { PushesOfCallsLeaveNothingReady }
    ensures refreshed { RefreshesOfScriptsShowTheQuery }
    ensures joined { JoinsOfScriptsTakeOver }
    ensures lines { LinesOfScriptsHold }
{
    convergence_holds();
}

/// A master that was lent out of a world that is built may come back as turns leave it, whatever turns these are.
pub fn lent_masters_may_come_back()
    ensures { LentMastersMayComeBack }
{}
