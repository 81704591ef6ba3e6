//! Numbers of threads as a line.

use crate::adding::added;
use case_reader::CaseStop;
use rep_lists::NoMemory;
use std::alloc::Global;
use std::sync::Wait;
use std::thread::Threads;

/// The numbers between blanks.
fn numbers_of(alloc: Global, part: &str) -> Result<Vec<u64>, NoMemory> {
    let mut numbers = Vec::new(alloc);
    for word in part.split(' ') {
        if let Ok(number) = word.parse::<u64>() {
            numbers.push(number)?;
        }
    }
    Ok(numbers)
}

/// What a line begins with, and the numbers of each thread.
fn parts_of(alloc: Global, line: &str) -> Result<(u64, Vec<Vec<u64>>), NoMemory> {
    let mut first = 0;
    let mut groups = Vec::new(alloc);
    for (place, part) in line.split('/').enumerate() {
        let numbers = numbers_of(alloc, part)?;
        if place == 0 {
            first = numbers.first().copied().unwrap_or(0);
        } else {
            groups.push(numbers)?;
        }
    }
    Ok((first, groups))
}

/// What a tally tells that begins with the first number, and to which a thread of its own adds the numbers of each other part.
pub fn sum_line<R: Threads + Wait + Sync>(
    rt: &R,
    alloc: Global,
    parts: &str,
) -> Result<String, CaseStop> {
    let (first, groups) = parts_of(alloc, parts)?;
    let tally = added(rt, alloc, first, groups)?;
    let (first, count, total) = (tally.first, tally.count(), tally.total);
    Ok(format!(in alloc; "first {first} added {count} total {total}")?)
}
