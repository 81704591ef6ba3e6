//! The numbers that a purge looks at: those of which each stream has passed some since the last purge.
ghost use Rattle.std.specs.Prelude.{◌≡◌, ◌↔◌, ℕ, ◌≤◌, ◌<◌, ◌&&◌, Bool, true, false, IsTrue, Some};
ghost use Rattle.std.specs.List.{list_all};
ghost use Rattle.deferred_queue.specs.QueueState.{kept_of, swept_of, swept_as, position_of, has_passed, is_unpassed};
ghost use Rattle.deferred_queue.specs.Spans.{Covers, is_covered};

use crate::stream::Stream;
use crate::streams::have_passed;

/// The numbers from a first one to a last one, none where the first is behind the last.
#[derive(Clone, Copy)]
pub(crate) struct Span {
    first: u64,
    last: u64,
}

impl Span {
    /// No numbers.
    fn none() -> Span {
        Span {
            first: u64::MAX,
            last: 0,
        }
    }

    /// The numbers of the span, and those from them to another.
    fn with(self, number: u64) -> Span
        ensures covers { Covers result number }
        ensures wider { (other : ℕ) → Covers self other → Covers result other }
    {
        Span {
            first: self.first.min(number),
            last: self.last.max(number),
        }
    }

    /// Whether a number is one of the span.
    pub(crate) fn covers(self, number: u64) -> bool
        ensures test { result ≡ is_covered self number }
        ensures covers { IsTrue result ↔ Covers self number }
    {
        self.first <= number && number <= self.last
    }

    /// Whether it has no number.
    pub(crate) fn is_empty(self) -> bool
        ensures { IsTrue result ↔ (self.last < self.first) }
    {
        self.last < self.first
    }
}

/// Whether a number is one of a span, and each stream has passed it.
pub(crate) fn goes(streams: &[Stream], span: Span, number: u64) -> bool
    ensures { result ≡ (is_covered span number && list_all (has_passed number) (kept_of streams.now)) }
{
    span.covers(number) && have_passed(streams, number)
}

/// The span with a number, where each stream has passed that.
fn with_passed(streams: &[Stream], span: Span, number: u64) -> Span
    ensures covers { is_unpassed (kept_of streams.now) number ≡ false → Covers result number }
    ensures wider { (other : ℕ) → Covers span other → Covers result other }
{
    if span.covers(number) || !have_passed(streams, number) {
        return span;
    }
    span.with(number)
}

/// The span with the number at a position of a stream, where each stream has passed that.
fn with_position(streams: &[Stream], stream: &Stream, span: Span, position: u64) -> Span
    ensures covers { (number : ℕ) → position_of number stream.now.kept.entries ≡ Some position → is_unpassed (kept_of streams.now) number ≡ false → Covers result number }
    ensures wider { (other : ℕ) → Covers span other → Covers result other }
{
    match stream.entry(position) {
        Some(entry) => with_passed(streams, span, entry.number),
        None => span,
    }
}

/// The span with those of the numbers that a stream has passed since the last purge.
fn with_acknowledged(streams: &[Stream], stream: &Stream, before: Span) -> Span
    ensures covers { (number : ℕ) → has_passed number (swept_as stream.now) ≡ false → has_passed number stream.now.kept ≡ true → is_unpassed (kept_of streams.now) number ≡ false → Covers result number }
    ensures wider { (other : ℕ) → Covers before other → Covers result other }
{
    let mut span = before;
    for place in stream.swept()..stream.acked() {
        span = with_position(streams, stream, span, place + 1);
    }
    span
}

/// The span with those of the numbers that any stream has passed since the last purge.
fn with_each_acknowledged(streams: &[Stream], before: Span) -> Span
    ensures covers { (number : ℕ) → is_unpassed (swept_of streams.now) number ≡ true → is_unpassed (kept_of streams.now) number ≡ false → Covers result number }
    ensures wider { (other : ℕ) → Covers before other → Covers result other }
{
    let mut span = before;
    for stream in streams {
        span = with_acknowledged(streams, stream, span);
    }
    span
}

/// The span with those of the numbers that were queued since the last purge.
fn with_queued(streams: &[Stream], before: Span, last: u64, count: u64) -> Span
    ensures covers { (number : ℕ) → last < number → number ≤ count → is_unpassed (kept_of streams.now) number ≡ false → Covers result number }
    ensures wider { (other : ℕ) → Covers before other → Covers result other }
{
    let mut span = before;
    for place in last..count {
        span = with_passed(streams, span, place + 1);
    }
    span
}

/// A span of the numbers up to a count that can be let go, where the last purge left none up to its last number.
pub(crate) fn passed_since(streams: &[Stream], last: u64, count: u64) -> Span
    ensures { (number : ℕ) → number ≤ count → (number ≤ last → is_unpassed (swept_of streams.now) number ≡ true) → is_unpassed (kept_of streams.now) number ≡ false → Covers result number }
{
    let acknowledged = with_each_acknowledged(streams, Span::none());
    with_queued(streams, acknowledged, last, count)
}
