//! Lines of scripts and of reports.
ghost use Rattle.std.specs.Prelude.{◌<◌, ◌≤◌, length};

use rep_values::{Name, SiteName};
use script_steps::split_line;

/// How many bytes the first line of a report has, with its end.
pub fn first_line(report: &[u8]) -> usize
    requires { 0 < length report.now }
    ensures some { 0 < result }
    ensures within { result ≤ length report.now }
{
    match report.iter().position(|byte| *byte == b'\n') {
        Some(place) => place + 1,
        None => report.len(),
    }
}

/// What stands behind so many lines of a script.
fn behind_lines(script: &[u8], count: u32) -> &[u8] {
    let mut left = script;
    for _ in 0..count {
        if left.is_empty() {
            break;
        }
        let (_, behind) = split_line(left);
        left = behind;
    }
    left
}

/// The line of a number, from 1; none where the script has fewer.
pub fn line_at(script: &[u8], number: u32) -> &[u8] {
    let left = behind_lines(script, number.saturating_sub(1));
    if left.is_empty() {
        return left;
    }
    let (line, _) = split_line(left);
    line
}

/// A number with one digit more.
fn with_digit(number: u64, digit: u8) -> Option<u64> {
    if !digit.is_ascii_digit() {
        return None;
    }
    number
        .checked_mul(10)?
        .checked_add(u64::from(digit.saturating_sub(b'0')))
}

/// The number that digits write.
fn number_of(digits: &[u8]) -> Option<u64> {
    let mut number = 0u64;
    for digit in digits {
        number = with_digit(number, *digit)?;
    }
    Some(number)
}

/// The words behind `error` of the report's line of an error: those of the sender and of the position.
fn error_words(line: &[u8]) -> Option<(&[u8], &[u8])> {
    let mut words = line.split(|byte| *byte == b' ');
    if words.next()? != b"error".as_slice() {
        return None;
    }
    Some((words.next()?, words.next()?))
}

/// The sender and the position of the report's line of an error.
pub fn error_of(line: &[u8]) -> Option<(SiteName, u64)> {
    let (origin, position) = error_words(line)?;
    let position = number_of(position)?;
    Some((SiteName(Name::of(origin)?), position))
}
