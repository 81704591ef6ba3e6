//! Cases of the finished positions of one sender.

use crate::told::yes_or_no;
use case_reader::{CaseStop, Words};
use origin_marks::Finished;
use rep_lists::NoMemory;
use script_lex::Token;
use std::alloc::Global;

/// Whether a position could be finished: it is one, and it wasn't before.
fn finish(finished: &mut Finished, position: u64) -> Result<bool, NoMemory> {
    if position == 0 || finished.is_finished(position) {
        return Ok(false);
    }
    finished.reserve()?;
    if finished.is_finished(position) {
        return Ok(false);
    }
    finished.finish(position);
    Ok(true)
}

/// Five positions from 1 to 5, by the number of their sequence.
fn sequence(number: u64) -> [u64; 5] {
    [
        number % 5 + 1,
        number / 5 % 5 + 1,
        number / 25 % 5 + 1,
        number / 125 % 5 + 1,
        number / 625 % 5 + 1,
    ]
}

/// The greatest number with all positions from 1 to it among these, at most 5.
fn counted_mark(positions: &[u64]) -> u64 {
    let mut mark = 0;
    for position in 1..6 {
        if mark == position - 1 && positions.contains(&position) {
            mark = position;
        }
    }
    mark
}

/// Whether mark and highest position are the counted ones after these positions.
fn is_counted(finished: &Finished, positions: &[u64], highest: u64) -> bool {
    finished.low_water() == counted_mark(positions) && finished.highest() == highest
}

/// Whether mark and highest position are the counted ones after each position of a sequence.
fn agrees(alloc: Global, number: u64) -> Result<bool, NoMemory> {
    let positions = sequence(number);
    let mut finished = Finished::make(alloc);
    let mut highest = 0;
    for (place, position) in positions.iter().enumerate() {
        finish(&mut finished, *position)?;
        highest = (*position).max(highest);
        if !is_counted(&finished, &positions[..=place], highest) {
            return Ok(false);
        }
    }
    Ok(true)
}

/// How many of all sequences agree.
fn agreed_count(alloc: Global) -> Result<u64, NoMemory> {
    let mut agreed = 0u64;
    for number in 0..3125 {
        if agrees(alloc, number)? {
            agreed = agreed.saturating_add(1);
        }
    }
    Ok(agreed)
}

fn orders(alloc: Global) -> Result<String, CaseStop> {
    let agreed = agreed_count(alloc)?;
    Ok(format!(in alloc; "{agreed} sequences agree")?)
}

/// `last` and a number: so many below the last position that there is.
fn read_below_last(words: &mut Words) -> Result<u64, CaseStop> {
    if words.word()? != b"last".as_slice() {
        return Err(CaseStop::NoCase);
    }
    let below = words.whole()?;
    u64::MAX.checked_sub(below).ok_or(CaseStop::NoCase)
}

/// A position: a number, or `last` and a number, so many below the last one that there is.
pub fn read_position(words: &mut Words) -> Result<u64, CaseStop> {
    match words.peek() {
        Some(Token::Word(_)) => read_below_last(words),
        Some(Token::Number { .. } | Token::Words(_) | Token::Symbol(_)) | None => words.whole(),
    }
}

/// The marks behind a word.
fn marks_text(alloc: Global, word: &str, finished: &Finished) -> Result<String, CaseStop> {
    let (low, highest) = (finished.low_water(), finished.highest());
    Ok(format!(in alloc; "{word} {low} highest {highest}")?)
}

/// Finishes a position, and shows the marks then.
fn finish_shown(
    alloc: Global,
    finished: &mut Finished,
    words: &mut Words,
) -> Result<String, CaseStop> {
    let position = read_position(words)?;
    if finish(finished, position)? {
        marks_text(alloc, "low", finished)
    } else {
        marks_text(alloc, "refused, low", finished)
    }
}

fn finished_shown(
    alloc: Global,
    finished: &Finished,
    words: &mut Words,
) -> Result<String, CaseStop> {
    let position = read_position(words)?;
    yes_or_no(alloc, finished.is_finished(position))
}

fn ready_shown(alloc: Global, finished: &Finished, words: &mut Words) -> Result<String, CaseStop> {
    let position = read_position(words)?;
    let dep = words.whole()?;
    yes_or_no(alloc, finished.is_ready(position, dep))
}

fn shown(
    alloc: Global,
    finished: &mut Finished,
    kind: &[u8],
    words: &mut Words,
) -> Result<String, CaseStop> {
    match kind {
        b"orders" => orders(alloc),
        b"finish" => finish_shown(alloc, finished, words),
        b"finished" => finished_shown(alloc, finished, words),
        _ => ready_shown(alloc, finished, words),
    }
}

/// Begins with no position finished.
fn begin(
    alloc: Global,
    finished: &mut Finished,
    words: &Words,
) -> Result<Option<String>, CaseStop> {
    words.end()?;
    *finished = Finished::make(alloc);
    Ok(None)
}

/// The outcome of a line of this kind.
pub fn outcome(
    alloc: Global,
    finished: &mut Finished,
    kind: &[u8],
    words: &mut Words,
) -> Result<Option<String>, CaseStop> {
    if kind == b"marks".as_slice() {
        return begin(alloc, finished, words);
    }
    let outcome = shown(alloc, finished, kind, words)?;
    words.end()?;
    Ok(Some(outcome))
}
