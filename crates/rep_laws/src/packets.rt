//! Which transactions a packet can carry. The function is empty: its contract is the law.
ghost use Rattle.rep_laws.specs.Packets.{FittingTransactionsArePlain, FittingTransactionsCanBeCarried};

/// So whoever has such a transaction may seal it, with a past that is within its limits (`Sealed::seal_body`).
pub fn fitting_transactions_can_be_carried()
    ensures plain { FittingTransactionsArePlain }
    ensures carried { FittingTransactionsCanBeCarried }
{}
