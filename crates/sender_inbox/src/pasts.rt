//! From where on the pasts of arrivals rise.
ghost use Rattle.std.specs.Prelude.{◌≡◌, None};
ghost use Rattle.rep_lists.specs.Rising.{IsRising, find_at, put_at};
ghost use Rattle.site_state.specs.State.{arrival_beside};
ghost use Rattle.sender_inbox.specs.Incoming.{by_position};
ghost use Rattle.sender_inbox.specs.Reaching.{reaches, is_within, PastsRise};

use crate::arrivals::first_above;
use rep_calls::PastEntry;
use site_state::Arrival;

/// Whether a past has what was seen of a master, or more.
fn reaches(past: &[PastEntry], seen: &PastEntry) -> bool
    ensures { result ≡ reaches past.now seen.now }
{
    past.iter().any(|p| p.origin.is_same(&seen.origin) && seen.number <= p.number)
}

/// Whether all of a past is within another one.
fn is_within(past: &[PastEntry], later: &[PastEntry]) -> bool
    ensures { result ≡ is_within past.now later.now }
{
    past.iter().all(|seen| reaches(later, seen))
}

/// From which position on pasts rise, where they did from one on and another arrival comes. No past is looked at where all that
/// stands before the arrival is finished, up to the low-water mark.
pub(crate) fn rising_with(arrived: &[Arrival], from: u64, low: u64, arrival: &Arrival) -> u64
    requires rising { IsRising by_position arrived.now }
    requires absent { find_at (arrival_beside arrival.now.position) arrived.now ≡ None }
    requires pasts { PastsRise from arrived.now }
    ensures { PastsRise result (put_at (arrival_beside arrival.now.position) arrival.now arrived.now) }
{
    let Some(last) = arrived.last() else {
        return from;
    };
    if arrival.position < last.position {
        let next = &arrived[first_above(arrived, arrival.position)];
        return from.max(next.position);
    }
    if low < last.position && is_within(last.past.as_slice(), arrival.past.as_slice()) {
        return from;
    }
    arrival.position
}
