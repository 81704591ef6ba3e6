//! The words of an error.

use page_text::words_of;
use rep_lists::{Items, NoMemory};
use rep_values::{ApplyError, SiteName};
use report_text::{Lines, MOST_LINE, error_line};
use std::alloc::Global;

/// `error ORIGIN POSITION call C KIND`
pub fn error_words(
    alloc: Global,
    origin: &SiteName,
    position: u64,
    call: u32,
    error: &ApplyError,
) -> Result<Items<u8>, NoMemory> {
    let mut lines = Lines::make(alloc);
    lines.reserve(MOST_LINE)?;
    error_line(&mut lines, origin, position, call, error);
    let bytes = lines.bytes();
    words_of(alloc, &bytes[..bytes.len().saturating_sub(1)])
}
