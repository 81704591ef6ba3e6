//! What a caller of a refresh by keys and parents can go by. The function is empty: its contract is the laws.
ghost use Rattle.subquery_snapshots.specs.Laws.{RisingKeysAreDistinct, UpToDateRowsAreShown};

/// Keys in rising order, as a log gives them, are distinct. Rows that have each up-to-date row of a master exactly where
/// the rule picks it, and no row under a key that is gone there, show what is up to date.
pub fn subquery_laws()
    ensures distinct { RisingKeysAreDistinct }
    ensures up_to_date { UpToDateRowsAreShown }
{}
