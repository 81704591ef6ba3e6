//! Laws over transactions of calls, and over every site of procedures, whatever happens there. The functions are empty: their
//! contracts are the laws.
ghost use Rattle.proc_state.specs.Laws.{AreFinishedOnce, CallsLeadToTheirTables, CarriedCallsDoTheSame, EarlierComesFirst, ErrorsStandWhole, EverySiteCanPass, EverySiteFits, ExecutionsApplyAnew, FailedCallsChangeNothing, IndependentOnesEndAlike, PassesLeaveNothingReady, RefusedExecutionsChangeNothing, SentPacketsFit, StreamsArriveWellNumbered, StreamsDependOnSharers, TokensStandForTables};

/// Calls that fit do the same to tables once they are carried.
pub fn carried_calls_do_the_same()
    ensures { CarriedCallsDoTheSame }
{}

/// Transactions that share no token leave the same tables in either order, and each of them fails, if it does, as it does
/// alone. A token stands for a whole table.
pub fn independent_transactions_end_alike()
    ensures tokens { TokensStandForTables }
    ensures alike { IndependentOnesEndAlike }
{}

/// Calls that fail change nothing at their site. Others leave the tables that they lead to, which the site's journal gives
/// again from empty ones.
pub fn calls_lead_to_their_tables()
    ensures failed { FailedCallsChangeNothing }
    ensures others { CallsLeadToTheirTables }
{}

/// A position in error leaves the tables as they were, and stands with the transaction as it arrived.
pub fn errors_stand_whole()
    ensures { ErrorsStandWhole }
{}

/// An execution that is refused changes nothing; any other one applies the whole transaction to the tables of that moment,
/// and its error no longer stands.
pub fn executions_apply_anew()
    ensures refused { RefusedExecutionsChangeNothing }
    ensures executed { ExecutionsApplyAnew }
{}

/// Each position of a sender is finished at most once; and of two positions whose transactions share a token the earlier is
/// finished first, where what arrived from the sender is well numbered.
pub fn earlier_comes_first()
    ensures once { AreFinishedOnce }
    ensures order { EarlierComesFirst }
{}

/// In the stream to a site each transaction depends on an earlier position, and on each earlier transaction with which it
/// shares a token; so what arrives of a stream is well numbered.
pub fn streams_depend_on_sharers()
    ensures depend { StreamsDependOnSharers }
    ensures numbered { StreamsArriveWellNumbered }
{}

/// After a pass no position of the sender is ready. What arrived at a site that fits can be passed.
pub fn passes_leave_nothing_ready()
    ensures passed { PassesLeaveNothingReady }
    ensures everywhere { EverySiteCanPass }
{}

/// Tables stay tables, and every transaction that is journalled or arrived is one of calls, as long as the calls that are made
/// and the packets that come fit. A packet that such a site sends does.
pub fn every_site_fits()
    ensures fits { EverySiteFits }
    ensures sent { SentPacketsFit }
{}
