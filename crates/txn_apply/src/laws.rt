//! How long a work's outcome holds. The function is empty: its contract is the law.
ghost use Rattle.txn_apply.specs.Laws.{SupportOutlastsIndependentTransactions};

/// Tables and counters that agree with a work's on what its tokens stand for do so after each transaction that shares no
/// token with it.
pub fn support_outlasts_independent_transactions()
    ensures { SupportOutlastsIndependentTransactions }
{}
