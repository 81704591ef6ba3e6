//! When transactions may be applied in either order. The functions are empty: their contracts are the laws.
ghost use Rattle.rep_laws.specs.Commuting.{TransactionsTouchTheirTokens, IndependentTransactionsCommute};

/// What a transaction does depends on what its tokens stand for, and it changes nothing else.
pub fn transactions_touch_their_tokens()
    ensures { TransactionsTouchTheirTokens }
{}

/// Two transactions that share no token give the same tables and counters in either order, and each has the same
/// changes, or the same failing call and error, in both orders.
pub fn independent_transactions_commute()
    ensures { IndependentTransactionsCommute }
{}
