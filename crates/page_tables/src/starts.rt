//! Where pages start: for each the number of slots in the pages before it.
ghost use Rattle.std.specs.Prelude.{◌≡◌, ◌+◌, ◌-◌, ◌<◌, ◌≤◌, ◌++◌, length, map, take, drop, vec_len, vec_capacity, slice_index_or, insert, nat_le, IfOk};
ghost use Rattle.std.specs.List.{AllByRecursion};
ghost use Rattle.std.specs.List.Sorted.{IsNonDecreasingBy, IsPartitionPoint};

use rep_lists::NoMemory;
use std::alloc::Global;

/// Adds one to each start.
fn raise_all(starts: &mut [usize])
    requires { AllByRecursion (λ start. start < 9223372036854775808) starts.old }
    ensures { starts.new ≡ map (λ start. start + 1) starts.old }
{
    for start in starts.iter_mut() {
        *start += 1;
    }
}

/// Takes one from each start.
fn lower_all(starts: &mut [usize])
    requires { AllByRecursion (λ start. 1 ≤ start) starts.old }
    ensures { starts.new ≡ map (λ start. start - 1) starts.old }
{
    for start in starts.iter_mut() {
        *start -= 1;
    }
}

/// Adds one to the starts from a place on.
pub(crate) fn raise(starts: &mut Vec<usize>, from: usize)
    requires from { from ≤ vec_len starts.old }
    requires few { AllByRecursion (λ start. start < 9223372036854775808) (drop from starts.old.items) }
    ensures starts { starts.new.items ≡ take from starts.old.items ++ map (λ start. start + 1) (drop from starts.old.items) }
    ensures room { vec_capacity starts.new ≡ vec_capacity starts.old }
{
    raise_all(&mut starts[from..]);
}

/// Takes one from the starts from a place on.
pub(crate) fn lower(starts: &mut Vec<usize>, from: usize)
    requires from { from ≤ vec_len starts.old }
    requires some { AllByRecursion (λ start. 1 ≤ start) (drop from starts.old.items) }
    ensures starts { starts.new.items ≡ take from starts.old.items ++ map (λ start. start - 1) (drop from starts.old.items) }
    ensures room { vec_capacity starts.new ≡ vec_capacity starts.old }
{
    lower_all(&mut starts[from..]);
}

/// Puts in the start of the page behind one that has so many slots. There is a place for it, so this takes no memory.
pub(crate) fn add_start(starts: &mut Vec<usize>, at: usize, slots: usize)
    requires at { at < vec_len starts.old }
    requires few { slice_index_or starts.old.items at 0 + slots < 18446744073709551616 }
    requires room { vec_len starts.old < vec_capacity starts.old }
    ensures starts { starts.new.items ≡ insert starts.old.items (at + 1) (slice_index_or starts.old.items at 0 + slots) }
    ensures room { vec_capacity starts.new ≡ vec_capacity starts.old }
{
    let start = starts[at] + slots;
    let _ = starts.insert(at + 1, start);
}

/// How many pages start at a place or before it.
pub(crate) fn started(starts: &[usize], place: usize) -> usize
    requires { IsNonDecreasingBy (λ start. start) starts.now }
    ensures point { IsPartitionPoint (λ start. start ≤ place) (λ start. place < start) starts.now result }
    ensures bound { result ≤ length starts.now }
{
    starts.partition_point(
        |start: &usize| -> bool
            ensures { result ≡ nat_le start.now place }
        { *start <= place },
    )
}

/// The same starts once more, with so many places.
pub(crate) fn copy_starts(
    alloc: Global,
    starts: &[usize],
    places: usize,
) -> Result<Vec<usize>, NoMemory>
    requires { length starts.now ≤ places }
    ensures starts { IfOk result (λ copied. copied.items ≡ starts.now) }
    ensures places { IfOk result (λ copied. places ≤ vec_capacity copied) }
{
    let mut copied = Vec::with_capacity(alloc, places)?;
    for start in starts {
        copied.push_reserved(*start);
    }
    Ok(copied)
}
