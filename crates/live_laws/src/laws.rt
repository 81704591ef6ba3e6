//! Laws over runs of turns at one site. The functions are empty: their contracts are the laws.
ghost use Rattle.live_laws.specs.FullRuns.{FullRunsAreEquallyLong, FullRunsExist, FullRunsFinishTheSame, PartialRunsGoOn};
ghost use Rattle.live_laws.specs.Printed.{ListedTurnsAreKnown, PrintedTurnsAreKnown, TurnLinesTellSubjects};
ghost use Rattle.live_laws.specs.RisingNumbers.{EverySiteHasRisingNumbers};
ghost use Rattle.live_laws.specs.RunLaws.{EarlierIsAppliedFirst, LivePartsAreEvents, PositionsAreAppliedOnce, TurnsAreEvents, TurnsAreJournalled};

/// A run applies each position at most once (`once`). Of two positions of an origin that share a token, the earlier was finished
/// at the opening or is applied before the later one (`order`), where dependency numbers cover what shares a token, as they do at
/// every site. Of two origins nothing is said: there a position waits for its past, by what ready means.
pub fn positions_are_applied_in_order()
    ensures once { PositionsAreAppliedOnce }
    ensures order { EarlierIsAppliedFirst }
{}

/// What a run of origins that are masters adds to the journal is what its turns tell, turn by turn: a position is done or in
/// error, with the transaction that arrived; a block is queued under the number of its reply, with what it changes there. A
/// block that changes nothing or is refused adds no entry, so the journal alone doesn't tell where such a turn stands.
pub fn turns_are_journalled()
    ensures { TurnsAreJournalled }
{}

/// At a site at which a pass was begun, turns are events, which change that site and nothing else (`turns`); so is a whole live
/// part at any site, from the beginning of its pass on (`part`). It holds of every list of turns, runs or not: what a turn
/// asks of its moment isn't in it.
pub fn turns_are_events()
    ensures turns { TurnsAreEvents }
    ensures part { LivePartsAreEvents }
{}

/// From every site there is a full run, whatever the origins and sessions are (`exist`), and each partial run goes on to one
/// (`go_on`). There may be several: which of them comes about isn't said.
pub fn full_runs_exist()
    ensures exist { FullRunsExist }
    ensures go_on { PartialRunsGoOn }
{}

/// All full runs from one site finish the same positions (`same`) and have as many turns (`length`), where queue numbers rise
/// with positions; and so they do at every site after every list of events (`everywhere`). It isn't said that they leave the
/// same rows: what is done in one order may be in error in another.
pub fn full_runs_finish_the_same()
    ensures same { FullRunsFinishTheSame }
    ensures length { FullRunsAreEquallyLong }
    ensures everywhere { EverySiteHasRisingNumbers }
{}

/// From a site that is known, with queue numbers that rise, bytes that begin with the texts of a full run's turns tell which
/// turns these are, where each text tells its turn's position or block (`printed`). A list of such texts tells it of any run
/// and any numbers (`listed`). Lines that begin with the words of their turns tell it (`lines`). That a program's lines begin
/// so, and what it prints before and behind them, isn't said.
pub fn printed_turns_are_known()
    ensures printed { PrintedTurnsAreKnown }
    ensures listed { ListedTurnsAreKnown }
    ensures lines { TurnLinesTellSubjects }
{}
