//! Laws of the streams.
ghost use Rattle.deferred_queue.specs.Laws.{PositionsAreFull, NumbersRise, DepsAreEarlier, NumbersAreQueued, SentAreInOrder, PlacesAreFound};

/// A stream has a transaction at each position from 1 to its last, a later position has a greater number, and each
/// dependency is an earlier position where each was one when it was queued. What stands in a stream has a number within
/// the queue, by which it is found in the queue, among the transactions in order, and at its position.
pub fn stream_laws()
    ensures full { PositionsAreFull }
    ensures rise { NumbersRise }
    ensures earlier { DepsAreEarlier }
    ensures queued { NumbersAreQueued }
    ensures in_order { SentAreInOrder }
    ensures found { PlacesAreFound }
{}
