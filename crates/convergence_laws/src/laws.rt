//! Laws of convergent tables. A function calls the laws that its own stands on, and does nothing else.
ghost use Rattle.convergence_laws.specs.Agreement.{SameCallsGiveSameRows};
ghost use Rattle.convergence_laws.specs.Collections.{JoinsAreOne};
ghost use Rattle.convergence_laws.specs.Faults.{ConvergentCallsFailSo};
ghost use Rattle.convergence_laws.specs.Laws.{BlocksKeepForms, GroupsAreJoined, GroupsAreJoinedSince, JournalsJoin, RowChangesKeepForms};
ghost use Rattle.convergence_laws.specs.Onward.{OnwardHasItsEffect};

use local_txn::stamps_of_a_block_rise;
use resolve_methods::{greater_rank_stays, greatest_stays, least_stays, move_is_added};

/// Each group of each row of a convergent table is the join of its first values and of the parts that the journal applied.
pub fn groups_are_joined_in_journals()
    ensures { JournalsJoin }
{
    move_is_added();
    greatest_stays();
    least_stays();
    greater_rank_stays();
}

/// The row changes of a transaction that keeps the forms of groups, sent on as calls, keep them too.
pub fn row_changes_keep_forms()
    ensures { RowChangesKeepForms }
{
    move_is_added();
    greatest_stays();
    least_stays();
    greater_rank_stays();
}

/// The transaction that a block of statements makes keeps the forms of groups: numbers keep their rule, and stamps rise.
pub fn blocks_keep_forms()
    ensures { BlocksKeepForms }
{
    stamps_of_a_block_rise();
}

/// Whatever happens, each group of each row of a convergent table at a master is the join of its first values and of the
/// parts that were applied there, in whatever order.
pub fn groups_are_joined()
    ensures { GroupsAreJoined }
{
    move_is_added();
    greatest_stays();
    least_stays();
    greater_rank_stays();
    stamps_of_a_block_rise();
}

/// And so it is from any moment on: the values of that moment are the first ones, with the parts that were applied since.
pub fn groups_are_joined_since()
    ensures { GroupsAreJoinedSince }
{
    move_is_added();
    greatest_stays();
    least_stays();
    greater_rank_stays();
    stamps_of_a_block_rise();
}

/// What a master sends on of a transaction of a snapshot site makes, on the tables on which that was applied, the same changes;
/// so it does from whatever site, and moves no counter.
pub fn onward_has_its_effect()
    ensures { OnwardHasItsEffect }
{
    move_is_added();
    greatest_stays();
    least_stays();
    greater_rank_stays();
    stamps_of_a_block_rise();
}

/// Of a group's first values and a collection of parts one join comes, where of two of the values one wins or they are the
/// same.
pub fn joins_are_one()
    ensures { JoinsAreOne }
{}

/// Two journals on the same base rows that applied the same calls, in whatever orders, lead to the same rows of convergent
/// tables, where of the latest values those of one stamp and level are the same.
pub fn same_calls_give_same_rows()
    ensures { SameCallsGiveSameRows }
{
    move_is_added();
    greatest_stays();
    least_stays();
    greater_rank_stays();
}

/// A call on a convergent table fails only where there is no row, where there is one already and one is inserted, where latest
/// values tie, or where a number of the row and what a part adds to it leave ±10^15.
pub fn convergent_calls_fail_so()
    ensures { ConvergentCallsFailSo }
{
    move_is_added();
    greatest_stays();
    least_stays();
    greater_rank_stays();
}
