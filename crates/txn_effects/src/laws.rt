//! Laws over what transactions do. The functions are empty: their contracts are the laws.
ghost use Rattle.txn_effects.specs.Laws.{TransactionsLeadToTheirTables, CallsOfChangesMakeThem};

/// A transaction that succeeds leads by its changes from the tables before it to those after it.
pub fn transactions_lead_to_their_tables()
    ensures { TransactionsLeadToTheirTables }
{}

/// The calls of changes, applied to the tables before them, make these changes and move no counter.
pub fn calls_of_changes_make_them()
    ensures { CallsOfChangesMakeThem }
{}
