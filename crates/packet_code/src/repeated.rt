//! Parts of a packet that stand several times.
ghost use Rattle.std.specs.Prelude.{◌≡◌, ℕ, ◌+◌, ◌<◌, List, Option, vec_len, vec_capacity, OnOk};
ghost use Rattle.packet_code.specs.Reading.{times, limited, up_to};
ghost use Rattle.packet_code.specs.Readers.{Reads, Adds};

use crate::reader::Reader;
use crate::stop::Stop;
use rep_lists::Items;
use std::alloc::Global;

/// A part of a packet that may stand several times.
pub trait Piece: Drop {
    ghost reading: { List ℕ → Option (Self × List ℕ) };

    /// Reads one, right into its place behind those that were found. It may want memory.
    fn add(alloc: Global, bytes: &mut Reader<'_>, found: &mut Vec<Self>) -> Result<(), Stop>
        requires { vec_len found.old < vec_capacity found.old }
        ensures added { Adds reading result bytes.old bytes.new found.old.items found.new.items }
        ensures number { OnOk result (vec_len found.new ≡ vec_len found.old + 1) }
        ensures room { OnOk result (vec_capacity found.new ≡ vec_capacity found.old) };
}

/// So many of them. The room for all of them is taken at once, so callers bound the count.
pub fn times<P: Piece>(
    alloc: Global,
    bytes: &mut Reader<'_>,
    count: usize,
) -> Result<Items<P>, Stop>
    ensures { Reads (times count P.reading) result bytes.old bytes.new }
{
    let mut found = Vec::with_capacity(alloc, count)?;
    for _ in 0..count {
        P::add(alloc, bytes, &mut found)?;
    }
    Ok(Items::from_vec(found))
}

/// So many of them, where it is 1 to the most.
pub fn limited<P: Piece>(
    alloc: Global,
    bytes: &mut Reader<'_>,
    most: usize,
    count: usize,
) -> Result<Items<P>, Stop>
    ensures { Reads (limited most P.reading count) result bytes.old bytes.new }
{
    if count < 1 || count > most {
        return Err(Stop::Form);
    }
    times::<P>(alloc, bytes, count)
}

/// So many of them, where it is at most the most.
pub fn up_to<P: Piece>(
    alloc: Global,
    bytes: &mut Reader<'_>,
    most: usize,
    count: usize,
) -> Result<Items<P>, Stop>
    ensures { Reads (up_to most P.reading count) result bytes.old bytes.new }
{
    if count > most {
        return Err(Stop::Form);
    }
    times::<P>(alloc, bytes, count)
}
