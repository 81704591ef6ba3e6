//! A script, line by line.
ghost use Rattle.std.specs.Prelude.{◌≡◌, ◌<◌, ◌≤◌, ◌∷◌, length, take, slice_index};
ghost use Rattle.script_drive.specs.Lines.{newline, IsUnbroken};
ghost use Rattle.script_steps.specs.Lines.{lines_of};

use memchr::memchr;

/// How many bytes stand before the first that ends a line, or all.
fn unbroken_len(script: &[u8]) -> usize
    ensures bound { result ≤ length script.now }
    ensures front { IsUnbroken (take result script.now) }
    ensures end { result < length script.now → slice_index script.now result ≡ newline }
{
    memchr(b'\n', script).unwrap_or(script.len())
}

/// The first line of a script, and what stands behind it.
pub fn split_line(script: &[u8]) -> (&[u8], &[u8])
    requires { 0 < length script.now }
    ensures line { lines_of script.now ≡ result.0.now ∷ lines_of result.1.now }
    ensures shorter { length result.1.now < length script.now }
{
    let end = unbroken_len(script);
    if end == script.len() {
        return (script, &script[end..]);
    }
    (&script[..end], &script[end + 1..])
}
