//! Laws of missing rows. A function calls the laws that its own stands on, and does nothing else.
ghost use Rattle.error_cause_laws.specs.LostInsertLaws.{MissingRowsAreOfInsertsInError, MissingRowsAreOfLostInserts};

use local_txn::stamps_of_a_block_rise;
use resolve_methods::{greater_rank_stays, greatest_stays, least_stays, move_is_added};

/// Where a transaction fails at a master because there is no row of a convergent table, the row's insert is in error there or
/// was dropped there. At a master that joined it may have been dropped before: at the site from which it was copied, or before
/// that one joined, and so on back.
pub fn missing_rows_are_of_lost_inserts()
    ensures { MissingRowsAreOfLostInserts }
{
    move_is_added();
    greatest_stays();
    least_stays();
    greater_rank_stays();
    stamps_of_a_block_rise();
}

/// At a master that was there from the start it is in error there or was dropped there.
pub fn missing_rows_are_of_inserts_in_error()
    ensures { MissingRowsAreOfInsertsInError }
{
    move_is_added();
    greatest_stays();
    least_stays();
    greater_rank_stays();
    stamps_of_a_block_rise();
}
