//! Laws of scripts with a live part. The functions call the laws that their own stand on, and do nothing else.
ghost use Rattle.world_run.specs.LiveScripts.{PrintedTurnsAreKnown, ScriptsHaveFullTurns};
ghost use Rattle.world_run.specs.LiveLaws.{LinesOutsideAreAsBefore, LiveLinesHold, LiveWorldsHold, ScriptsWithoutPartsPrintTheSame};

use convergent_worlds::convergence_holds;
use live_report::printed_parts_are_known;

/// The laws over events, of snapshots, of convergence and of procedures hold of the world behind whatever lines of a script with a
/// live part, whatever turns the part has (`worlds`). Once a push outside an open part is reported, be it one of calls, no position
/// of any sender is ready at the receiver; once a refresh is, each snapshot of the site is its query of its master's table; once a
/// join is, the late master has taken over. So it is with each line (`lines`).
pub fn live_worlds_hold()
    ensures worlds { LiveWorldsHold }
    ensures lines { LiveLinesHold }
{
    convergence_holds();
}

/// Outside an open part a line that begins with none of the words `live`, `session` and `end` does what it does in other scripts
/// (`lines`), so that a script of such lines prints the same (`report`).
pub fn live_scripts_keep_lines()
    ensures lines { LinesOutsideAreAsBefore }
    ensures report { ScriptsWithoutPartsPrintTheSame }
{}

/// Every script has full turns: a full run of its part, where that has an end, and else none.
pub fn scripts_have_full_turns()
    ensures { ScriptsHaveFullTurns }
{}

/// Two lists of turns that are full for a script, and by which it prints the same, are the same: the bytes of a report tell the
/// turns of the live part.
pub fn printed_turns_are_known()
    ensures { PrintedTurnsAreKnown }
{
    printed_parts_are_known();
}
