//! The streams of an index, one for each destination.
ghost use Rattle.std.specs.Prelude.{◌≡◌, ℕ, ◌+◌, ◌≤◌, map, IfOk, OnOk};
ghost use Rattle.std.specs.List.{position, AllByRecursion};
ghost use Rattle.rep_values.specs.Name.{same_bytes};
ghost use Rattle.dependency_index.specs.Columns.{Lodged, new_lodged, columns_of, with_room, promised, rooms};

use crate::stream::Stream;
use rep_lists::NoMemory;
use rep_values::SiteName;
use std::alloc::Global;

/// A stream to each destination, in which nothing is noted.
pub(crate) fn new_each(alloc: Global, destinations: &[SiteName]) -> Result<Vec<Stream>, NoMemory>
    ensures { IfOk result (λ streams. streams.items ≡ map new_lodged destinations.now) }
{
    let streams = destinations
        .iter()
        .map(|site| Stream::make(alloc, *site))
        .collect(alloc)?;
    Ok(streams)
}

/// The place of the first stream to a site.
pub(crate) fn place_to(streams: &[Stream], site: &SiteName) -> Option<usize>
    ensures { result ≡ position (λ l. same_bytes l.column.site.0 site.now.0) streams.now }
{
    streams.iter().position(|stream| stream.is_to(site))
}

/// The sum of two numbers, where there can be so much memory.
pub(crate) fn sum_of(one: usize, other: usize) -> Result<usize, NoMemory>
    ensures { IfOk result (λ sum. sum ≡ one + other) }
{
    one.checked_add(other).ok_or(NoMemory)
}

/// For how many tokens there is to be room where each stream gets room for so many.
pub(crate) fn rooms_with(streams: &[Stream], size: usize) -> Result<usize, NoMemory>
    ensures { IfOk result (λ sum. sum ≡ rooms (map (with_room size) (columns_of streams.now))) }
{
    let mut sum: usize = 0;
    for stream in streams {
        sum = sum_of(sum, stream.room().max(size))?;
    }
    Ok(sum)
}

/// Takes the memory for so many places in each stream.
pub(crate) fn reserve_each(streams: &mut [Stream], places: usize) -> Result<(), NoMemory>
    ensures ok { OnOk result (AllByRecursion (λ (l : Lodged). places ≤ l.capacity) streams.new) }
    ensures columns { columns_of streams.new ≡ columns_of streams.old }
    ensures capacity { (least : ℕ) → AllByRecursion (λ (l : Lodged). least ≤ l.capacity) streams.old → AllByRecursion (λ (l : Lodged). least ≤ l.capacity) streams.new }
{
    for stream in streams.iter_mut() {
        stream.reserve(places)?;
    }
    Ok(())
}

/// Promises room for so many tokens in each stream.
pub(crate) fn promise_each(streams: &mut [Stream], size: usize)
    ensures { streams.new ≡ map (promised size) streams.old }
{
    for stream in streams.iter_mut() {
        stream.promise(size);
    }
}
