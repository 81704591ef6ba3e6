//! The words of a picture.

use page_text::words_of;
use rep_lists::{Items, NoMemory};
use rep_values::Name;
use std::alloc::Global;

/// Bytes, or as many of them as there is room for, with two dots behind.
pub fn cut_to(alloc: Global, bytes: &[u8], room: usize) -> Result<Items<u8>, NoMemory> {
    if room < 2 {
        return words_of(alloc, bytes);
    }
    if bytes.len() <= room {
        return words_of(alloc, bytes);
    }
    let mut cut = Vec::from_slice(alloc, &bytes[..room - 2])?;
    cut.extend_from_slice(b"..")?;
    Ok(Items::from_vec(cut))
}

/// A name, or its front where it is long.
pub fn short_name(alloc: Global, name: &Name) -> Result<String, NoMemory> {
    let text = format!(in alloc; "{name}")?;
    if text.len() <= 8 {
        return Ok(text);
    }
    let mut short = String::new(alloc);
    for letter in text.chars().take(6) {
        short.push(letter)?;
    }
    short.push_str("..")?;
    Ok(short)
}
