//! Blocks of statements as lines.

use case_reader::{CaseStop, Words, read_statement};
use rep_calls::Statement;
use script_lex::lex;
use std::alloc::{AllocError, Global};

/// The statements of a block.
#[derive(Drop)]
pub struct Block {
    pub statements: Vec<Statement>,
}

/// `COUNT LINE`
pub fn repeated(words: &str) -> Option<(u64, &str)> {
    let (count, line) = words.split_once(' ')?;
    let count = count.parse::<u64>().ok()?;
    Some((count, line))
}

/// The line, in which a number stands for `%`.
pub fn numbered(alloc: Global, number: u64, line: &str) -> Result<String, AllocError> {
    let digits = format!(in alloc; "{number}")?;
    line.replace(alloc, '%', digits.as_str())
}

fn numbered_statement(alloc: Global, number: u64, line: &str) -> Result<Statement, CaseStop> {
    let line = numbered(alloc, number, line)?;
    let tokens = lex(alloc, line.as_bytes())?;
    read_statement(alloc, &mut Words::of(tokens.as_slice()))
}

/// A block of so many statements, in each of which its number stands for `%`.
pub fn block_of(alloc: Global, count: u64, line: &str) -> Result<Block, CaseStop> {
    let mut statements = Vec::new(alloc);
    for number in 1..=count {
        statements.push(numbered_statement(alloc, number, line)?)?;
    }
    Ok(Block { statements })
}
