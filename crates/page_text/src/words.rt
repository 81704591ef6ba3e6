//! Words of a page.
ghost use Rattle.std.specs.Prelude.{◌≡◌, IfOk, string_bytes};

use rep_lists::{Items, NoMemory};
use std::alloc::Global;

/// Bytes as words of their own.
pub fn words_of(alloc: Global, bytes: &[u8]) -> Result<Items<u8>, NoMemory>
    ensures { IfOk result (λ words. words ≡ bytes.now) }
{
    Ok(Items::from_vec(Vec::from_slice(alloc, bytes)?))
}

/// A text as words.
pub fn text_of(text: String) -> Items<u8>
    ensures { result ≡ string_bytes text }
{
    Items::from_vec(text.into_bytes())
}
