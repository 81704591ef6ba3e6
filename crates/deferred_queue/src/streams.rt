//! The streams of a queue, one for each destination.
ghost use Rattle.std.specs.Prelude.{◌≡◌, ◌↔◌, ℕ, ◌-◌, ◌≤◌, length, map, IfOk, OnOk, option_copied, IsTrue};
ghost use Rattle.std.specs.List.{AllByRecursion, find, list_all};
ghost use Rattle.deferred_queue.specs.Streams.{at_position, acked_by};
ghost use Rattle.deferred_queue.specs.QueueState.{FallsFrom, new_held, is_stream_to, kept_of, swept_of, rooms_of, stream_marks, entries_to, place_in, has_passed, held_extended, held_raised, held_swept, CanGo};
ghost use Rattle.rep_lists.specs.Counting.{least};

use crate::entries::Entry;
use crate::stream::Stream;
use crate::{Destination, Place};
use rep_lists::NoMemory;
use rep_values::SiteName;
use std::alloc::Global;

/// New streams, one for each of these sites.
pub(crate) fn new_each(alloc: Global, sites: &[SiteName]) -> Result<Vec<Stream>, NoMemory>
    ensures { IfOk result (λ streams. streams.items ≡ map new_held sites.now) }
{
    let streams = sites
        .iter()
        .map(|site| Stream::new(alloc, *site))
        .collect(alloc)?;
    Ok(streams)
}

/// The stream to a site, the first one where two have its name.
fn stream_to<'a>(streams: &'a [Stream], site: &SiteName) -> Option<&'a Stream>
    ensures { option_copied result ≡ find (is_stream_to site.now) streams.now }
{
    streams.iter().find(|stream| stream.is_to(site))
}

/// The entry at a position of the stream to a site.
pub(crate) fn entry_to<'a>(
    streams: &'a [Stream],
    site: &SiteName,
    position: u64,
) -> Option<&'a Entry<u64>>
    ensures { option_copied result ≡ at_position position (entries_to site.now (kept_of streams.now)) }
{
    match stream_to(streams, site) {
        Some(stream) => stream.entry(position),
        None => None,
    }
}

/// Where a number stands in the stream to a site.
pub(crate) fn place_to(streams: &[Stream], site: &SiteName, number: u64) -> Option<Place>
    ensures { result ≡ place_in number (entries_to site.now (kept_of streams.now)) }
{
    match stream_to(streams, site) {
        Some(stream) => stream.place_of(number),
        None => None,
    }
}

/// Whether each stream that a number has a position in has acknowledged it.
pub(crate) fn have_passed(streams: &[Stream], number: u64) -> bool
    ensures { result ≡ list_all (has_passed number) (kept_of streams.now) }
{
    for stream in streams {
        if !stream.has_passed(number) {
            return false;
        }
    }
    true
}

/// The last position of the stream to a site.
pub(crate) fn last_to(streams: &[Stream], site: &SiteName) -> u64
    ensures { result ≡ length (entries_to site.now (kept_of streams.now)) }
{
    match stream_to(streams, site) {
        Some(stream) => stream.last(),
        None => 0,
    }
}

/// How far a site has acknowledged its stream.
pub(crate) fn acked_to(streams: &[Stream], site: &SiteName) -> u64
    ensures { result ≡ acked_by site.now (stream_marks (kept_of streams.now)) }
{
    match stream_to(streams, site) {
        Some(stream) => stream.acked(),
        None => 0,
    }
}

/// Whether there is a stream to the destination, with the position on which the transaction depends.
fn can_go(streams: &[Stream], destination: &Destination) -> bool
    ensures { IsTrue result ↔ CanGo (kept_of streams.now) destination.now }
{
    match stream_to(streams, &destination.site) {
        Some(stream) => destination.dep <= stream.last(),
        None => false,
    }
}

/// Whether a transaction can go to each of these.
pub(crate) fn can_go_to_each(streams: &[Stream], to: &[Destination]) -> bool
    ensures { IsTrue result ↔ AllByRecursion (CanGo (kept_of streams.now)) to.now }
{
    for destination in to {
        if !can_go(streams, destination) {
            return false;
        }
    }
    true
}

/// Takes the room for one more entry in each stream.
pub(crate) fn reserve_each(streams: &mut [Stream]) -> Result<(), NoMemory>
    ensures ok { OnOk result (1 ≤ least 1 (rooms_of streams.new)) }
    ensures kept { kept_of streams.new ≡ kept_of streams.old }
    ensures swept { swept_of streams.new ≡ swept_of streams.old }
    ensures room { (free : ℕ) → least free (rooms_of streams.old) ≤ least free (rooms_of streams.new) }
{
    for stream in streams.iter_mut() {
        stream.reserve()?;
    }
    Ok(())
}

/// Adds an entry of a transaction to each stream to which it goes.
pub(crate) fn extend_each(streams: &mut [Stream], to: &[Destination], number: u64)
    requires room { 1 ≤ least 1 (rooms_of streams.old) }
    requires from_one { 1 ≤ number }
    requires later { AllByRecursion (λ h. FallsFrom (number - 1) h.kept.entries) streams.old }
    ensures { streams.new ≡ map (held_extended to.now number) streams.old }
{
    for stream in streams.iter_mut() {
        stream.extend(to, number);
    }
}

/// Takes in a mark for a site.
pub(crate) fn raise_each(streams: &mut [Stream], site: &SiteName, mark: u64)
    ensures { streams.new ≡ map (held_raised site.now mark) streams.old }
{
    for stream in streams.iter_mut() {
        stream.raise(site, mark);
    }
}

/// Remembers how far each is acknowledged at a purge.
pub(crate) fn sweep_each(streams: &mut [Stream])
    ensures { streams.new ≡ map held_swept streams.old }
{
    for stream in streams.iter_mut() {
        stream.sweep();
    }
}
