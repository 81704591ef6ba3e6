//! What passes did, in all.
ghost use Rattle.std.specs.Prelude.{◌≡◌, ◌+◌, ◌<◌, ◌^◌, ◌||◌};

use site_state::PassCount;

/// How many transactions were finished, and whether there was a pass at all.
#[derive(Clone, Copy)]
pub(crate) struct Passed {
    pub count: PassCount,
    pub some: bool,
}

/// No pass.
pub(crate) const NOTHING: Passed = Passed {
    count: PassCount { done: 0, errors: 0 },
    some: false,
};

/// The sum of two counts.
pub(crate) fn added(count: PassCount, more: PassCount) -> PassCount
    requires done { count.done + more.done < 2 ^ 64 }
    requires errors { count.errors + more.errors < 2 ^ 64 }
    ensures done { result.done ≡ count.done + more.done }
    ensures errors { result.errors ≡ count.errors + more.errors }
{
    PassCount {
        done: count.done + more.done,
        errors: count.errors + more.errors,
    }
}

/// What was done first, and then more.
pub(crate) fn joined(first: Passed, more: Passed) -> Passed
    requires done { first.count.done + more.count.done < 2 ^ 64 }
    requires errors { first.count.errors + more.count.errors < 2 ^ 64 }
    ensures done { result.count.done ≡ first.count.done + more.count.done }
    ensures errors { result.count.errors ≡ first.count.errors + more.count.errors }
    ensures some { result.some ≡ (first.some || more.some) }
{
    Passed {
        count: added(first.count, more.count),
        some: first.some || more.some,
    }
}
