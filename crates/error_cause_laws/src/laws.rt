//! Laws of errors on convergent tables. A function calls the laws that its own stands on, and does nothing else.
ghost use Rattle.error_cause_laws.specs.Laws.{ErrorsAreExcused, KeysAreNeverTaken, MissingRowsWereNeverThere};

use local_txn::stamps_of_a_block_rise;
use resolve_methods::{greater_rank_stays, greatest_stays, least_stays, move_is_added};

/// Where a transaction fails because there is no row of a convergent table, that row was no base row of the master, and no
/// insert of it was applied there before.
pub fn missing_rows_were_never_there()
    ensures { MissingRowsWereNeverThere }
{
    move_is_added();
    greatest_stays();
    least_stays();
    greater_rank_stays();
    stamps_of_a_block_rise();
}

/// A transaction on convergent tables never fails because a key is taken: what it inserts is inserted nowhere else.
pub fn keys_are_never_taken()
    ensures { KeysAreNeverTaken }
{
    move_is_added();
    greatest_stays();
    least_stays();
    greater_rank_stays();
    stamps_of_a_block_rise();
}

/// Whatever happens, each error of a transaction on convergent tables is a row that was never there or a sum that leaves ±10^15,
/// at each master; and so is each execution that is refused. A sum is the first number with all that was applied.
pub fn errors_are_excused()
    ensures { ErrorsAreExcused }
{
    move_is_added();
    greatest_stays();
    least_stays();
    greater_rank_stays();
    stamps_of_a_block_rise();
}
