//! Bytes as pieces of hexadecimal digits.

use case_reader::CaseStop;
use std::alloc::Global;

/// The digits of one piece, and how often they stand there.
fn digits_and_count(piece: &str) -> Result<(&str, u64), CaseStop> {
    let Some((digits, count)) = piece.split_once('*') else {
        return Ok((piece, 1));
    };
    match count.parse::<u64>() {
        Ok(count) => Ok((digits, count)),
        Err(_) => Err(CaseStop::NoCase),
    }
}

fn bytes_of_digits(alloc: Global, digits: &str) -> Result<Vec<u8>, CaseStop> {
    match hex::decode(alloc, digits) {
        Ok(bytes) => Ok(bytes),
        Err(_) => Err(CaseStop::NoCase),
    }
}

/// The bytes, so many times.
fn push_times(found: &mut Vec<u8>, bytes: &[u8], count: u64) -> Result<(), CaseStop> {
    for _ in 0..count {
        found.extend_from_slice(bytes)?;
    }
    Ok(())
}

/// The bytes of one piece.
fn push_piece(alloc: Global, found: &mut Vec<u8>, piece: &str) -> Result<(), CaseStop> {
    let (digits, count) = digits_and_count(piece)?;
    let bytes = bytes_of_digits(alloc, digits)?;
    push_times(found, &bytes, count)
}

/// The bytes of all pieces, one behind the other.
pub fn bytes_of_pieces(alloc: Global, text: &str) -> Result<Vec<u8>, CaseStop> {
    let mut found = Vec::new(alloc);
    for word in text.split(' ') {
        push_piece(alloc, &mut found, word)?;
    }
    Ok(found)
}
