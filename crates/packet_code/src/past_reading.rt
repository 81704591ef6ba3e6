//! What a sender had seen, read from bytes.
ghost use Rattle.packet_code.specs.Forms.{seen, past};
ghost use Rattle.packet_code.specs.Readers.{Reads};

use crate::limits::{are_others, names_rise};
use crate::reader::Reader;
use crate::repeated::{Piece, up_to};
use crate::stop::Stop;
use crate::value_reading::site;
use rep_calls::PastEntry;
use rep_lists::Items;
use rep_values::SiteName;
use std::alloc::Global;

/// A master, and a number from 1.
#[tactic(auto, unfolding(crate::specs::Forms::seen))]
fn past_entry(bytes: &mut Reader<'_>) -> Result<PastEntry, Stop>
    ensures { Reads seen result bytes.old bytes.new }
{
    let origin = site(bytes)?;
    let number = bytes.u64_number()?;
    if number < 1 {
        return Err(Stop::Form);
    }
    Ok(PastEntry { origin, number })
}

impl Piece for PastEntry {
    ghost reading = { seen };

    fn add(_alloc: Global, bytes: &mut Reader<'_>, found: &mut Vec<PastEntry>) -> Result<(), Stop> {
        found.push_reserved(past_entry(bytes)?);
        Ok(())
    }
}

/// A count, and so many masters.
#[tactic(auto, unfolding(crate::specs::Forms::past))]
pub fn past(
    alloc: Global,
    bytes: &mut Reader<'_>,
    from: &SiteName,
) -> Result<Items<PastEntry>, Stop>
    ensures { Reads (past from.now) result bytes.old bytes.new }
{
    let count = bytes.byte()?;
    let past = up_to::<PastEntry>(alloc, bytes, 7, count as usize)?;
    if !are_others(from, past.as_slice()) {
        return Err(Stop::Form);
    }
    if !names_rise(past.as_slice()) {
        return Err(Stop::Form);
    }
    Ok(past)
}
