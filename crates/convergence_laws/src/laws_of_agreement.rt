//! Laws of agreement. A function calls the laws that its own stands on, and does nothing else.
ghost use Rattle.convergence_laws.specs.QuietAgreement.{QuietMastersAgree, QuietMastersAgreeAgain};
ghost use Rattle.convergence_laws.specs.Between.{GroupsAreJoinedBetween};
ghost use Rattle.convergence_laws.specs.Latest.{LatestValuesTellApart};
ghost use Rattle.convergence_laws.specs.Pairs.{PairsAreMadeOnce, PairsTellValues};

use crate::groups_are_joined_since;
use local_txn::stamps_of_a_block_rise;
use resolve_methods::{greater_rank_stays, greatest_stays, least_stays, move_is_added};

/// Whatever happens, a site makes no pair of a stamp and its name twice of a group of a row.
pub fn pairs_are_made_once()
    ensures { PairsAreMadeOnce }
{
    stamps_of_a_block_rise();
}

/// And in all that masters queue, what came from snapshot sites among it, one pair stands for one list of values.
pub fn pairs_tell_values()
    ensures { PairsTellValues }
{
    move_is_added();
    greatest_stays();
    least_stays();
    greater_rank_stays();
    stamps_of_a_block_rise();
}

/// At each master, whatever happens, the latest values of a row tell apart, what snapshot sites made on the way among them: those
/// of one stamp and level are the same, so that one of them is the greatest.
pub fn latest_values_tell_apart()
    ensures { LatestValuesTellApart }
{
    move_is_added();
    greatest_stays();
    least_stays();
    greater_rank_stays();
    stamps_of_a_block_rise();
}

/// So whatever happened, and whoever joined, masters that are quiet have the same rows of every convergent table.
pub fn quiet_masters_agree()
    ensures { QuietMastersAgree }
{
    move_is_added();
    greatest_stays();
    least_stays();
    greater_rank_stays();
    stamps_of_a_block_rise();
}

/// And so it goes on from one quiet moment to the next: where they agreed once, whatever had been dropped or was unlike before,
/// they agree again.
pub fn quiet_masters_agree_again()
    ensures { QuietMastersAgreeAgain }
{
    move_is_added();
    greatest_stays();
    least_stays();
    greater_rank_stays();
    stamps_of_a_block_rise();
}

/// From any moment to any later one a master's rows become joins of what they were and of what was applied since.
pub fn groups_are_joined_between()
    ensures { GroupsAreJoinedBetween }
{
    groups_are_joined_since();
}
