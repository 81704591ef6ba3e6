//! The stamps that a site gives.
ghost use Rattle.std.specs.Prelude.{◌≡◌};
ghost use Rattle.txn_effects.specs.Stamps.{stamp_above, capped};

/// The next stamp of a site: the greatest of its clock, its last stamp plus 1, and a bound. Where no column may hold it, it is
/// 10^15 + 1, which none may hold either.
pub fn stamp_above(clock: u64, last: u64, bound: u64) -> u64
    ensures { result ≡ capped (stamp_above clock last bound) }
{
    clock
        .max(last.saturating_add(1))
        .max(bound)
        .min(1_000_000_000_000_001)
}
