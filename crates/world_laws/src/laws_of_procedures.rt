//! Laws over all scripts. The functions are empty: their contracts are the laws.
ghost use Rattle.world_laws.specs.Built.{AreProcsBuilt};
ghost use Rattle.world_laws.specs.ProcedureWorlds.{ProceduresHoldInScripts, PushesLeaveNoCallsReady};
ghost use Rattle.world_laws.specs.SnapshotScripts.{InScripts};

/// What every script declares of procedures is well declared; and behind Setup each site that holds their tables came to be by
/// calls and packets that fit.
pub fn worlds_build_procedures()
    ensures { InScripts AreProcsBuilt }
{}

/// At each site of every script's world tables stay tables; each position of a sender is finished once, and of two whose
/// transactions call on one table the earlier one first; an acknowledged mark is at most the receiver's low-water mark; what
/// arrived is what its origin sent; and an error that stands is whole, and leaves the tables.
pub fn procedures_hold()
    ensures { ProceduresHoldInScripts }
{}

/// Once a push of calls is done, no position of any sender is ready at the receiver.
pub fn pushes_of_calls_leave_nothing_ready()
    ensures { InScripts PushesLeaveNoCallsReady }
{}
