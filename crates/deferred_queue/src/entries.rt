//! What is kept under the numbers of transactions.
ghost use Rattle.std.specs.Prelude.{◌≡◌, ◌+◌, ◌<◌, length, reverse, option_map, IfSome};
ghost use Rattle.std.specs.Ordering.{nat_cmp};
ghost use Rattle.deferred_queue.specs.QueueState.{Falls, position_of};

use std::cmp::Ordering;

/// A value and the number of its transaction in the queue.
#[derive(Drop)]
pub(crate) struct Entry<T> {
    pub(crate) number: u64,
    pub(crate) value: T,
}

/// The place of the entry with a number. The numbers rise.
pub(crate) fn place_with<T>(entries: &[Entry<T>], number: u64) -> Option<usize>
    requires { Falls (reverse entries.now) }
    ensures position { option_map (λ place. place + 1) result ≡ position_of number (reverse entries.now) }
    ensures within { IfSome result (λ place. place < length entries.now) }
{
    entries
        .binary_search_by(
            |entry: &Entry<T>| -> Ordering
                ensures { result ≡ nat_cmp entry.now.number number }
            { entry.number.cmp(&number) },
        )
        .ok()
}
