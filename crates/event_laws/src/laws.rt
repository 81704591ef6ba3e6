//! Laws over every list of events, and over every site. The functions are empty: their contracts are the laws.
ghost use Rattle.event_laws.specs.Confluence.{EverySiteCanPassInAnyOrder, OneSiteComesOfAnyOrder, PassesTakeSuchAnOrder};
ghost use Rattle.event_laws.specs.ErrorLaws.{DropsClear, ErrorsStandWhole, ExecutionsApplyAnew, RefusedExecutionsChangeNothing};
ghost use Rattle.event_laws.specs.Fitting.{EverySiteFits};
ghost use Rattle.event_laws.specs.Marks.{AreWellNumbered, MarksAreLow, PurgedIsFinished};
ghost use Rattle.event_laws.specs.Orders.{AreFinishedOnce, AreClearedOnce, EarlierComesFirst};
ghost use Rattle.event_laws.specs.PassLaws.{EverySiteCanPass, LowWaterIsThatOfTheFinished, PassesLeaveNothingReady, PurgesTakeWhatIsAcknowledged};
ghost use Rattle.site_events.specs.Rules.{QueriesAreRules};
ghost use Rattle.event_laws.specs.Starts.{InEveryRun};
ghost use Rattle.event_laws.specs.Waiting.{NothingWaitsForEver};

/// What a destination has acknowledged it has finished, whatever happens; so what is purged is finished wherever it was
/// sent. And dependency numbers cover all earlier transactions that share a token.
pub fn marks_are_never_ahead()
    ensures low { InEveryRun MarksAreLow }
    ensures purged { InEveryRun PurgedIsFinished }
    ensures numbered { InEveryRun AreWellNumbered }
{}

/// Each position is finished at most once and its error cleared at most once, whatever happens; and of two transactions
/// of a stream that share a token the earlier is finished first.
pub fn earlier_comes_first()
    ensures once { InEveryRun AreFinishedOnce }
    ensures cleared { InEveryRun AreClearedOnce }
    ensures order { InEveryRun EarlierComesFirst }
{}

/// An error leaves tables, counters and queue as they were, and stands with the transaction as it arrived.
pub fn errors_stand_whole()
    ensures { ErrorsStandWhole }
{}

/// An execution that is refused changes nothing; any other one applies the whole transaction to the tables of that
/// moment. A drop changes no table. After either the error no longer stands.
pub fn executions_apply_anew()
    ensures refused { RefusedExecutionsChangeNothing }
    ensures executed { ExecutionsApplyAnew }
    ensures dropped { DropsClear }
{}

/// After a pass no position of the sender is ready. Every site can make such a pass for every sender, whatever happens.
pub fn passes_leave_nothing_ready()
    ensures low { LowWaterIsThatOfTheFinished }
    ensures passed { PassesLeaveNothingReady }
    ensures everywhere { EverySiteCanPass }
{}

/// Whatever the order in which all that is ready of a master is applied, one site comes of it, but for the order of the new
/// entries. A pass takes such an order. Every site is such a site for every master, whatever happens.
pub fn ready_positions_in_any_order()
    ensures one { OneSiteComesOfAnyOrder }
    ensures passes { PassesTakeSuchAnOrder }
    ensures everywhere { EverySiteCanPassInAnyOrder }
{}

/// A purge takes what every destination that has it has acknowledged, and nothing else.
pub fn purges_take_what_is_acknowledged()
    ensures { PurgesTakeWhatIsAcknowledged }
{}

/// Where all that was queued for a site has arrived there and a pass of any sender finishes nothing, nothing waits there,
/// whatever happened before, joins among it.
pub fn nothing_waits_for_ever()
    ensures { NothingWaitsForEver }
{}

/// Tables stay tables, and every transaction that is queued, arrived or journalled fits the schema, whatever happens. What
/// a block changes its transaction changes, when it is applied to the same tables.
pub fn every_site_fits()
    ensures { EverySiteFits }
{}

/// A refresh goes by the rules of snapshots. One without a parent shows what its query picks, and of the master's logs that of
/// its table alone tells whether they are too young, and what is looked up.
pub fn queries_are_rules()
    ensures { QueriesAreRules }
{}
