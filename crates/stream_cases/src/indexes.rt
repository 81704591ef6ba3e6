//! Cases of the dependency index of a site.

use crate::queues::{read_sites, read_table};
use crate::scan::compared;
use crate::told::text;
use case_reader::{CaseStop, Words};
use dependency_index::{Index, Token, Tokens};
use rep_lists::{Items, NoMemory};
use rep_values::SiteName;
use std::alloc::Global;

/// Notes tokens at the next position of the stream to a site; None where it is no destination.
pub fn note_next(
    index: &mut Index,
    to: &SiteName,
    tokens: &Tokens,
) -> Result<Option<u64>, NoMemory> {
    if !index.is_indexed(to) {
        return Ok(None);
    }
    index.reserve(tokens)?;
    if !index.is_indexed(to) {
        return Ok(None);
    }
    match index.count(to).checked_add(1) {
        Some(position) => Ok(Some(index.note(to, position, tokens))),
        None => Ok(None),
    }
}

fn read_row(alloc: Global, words: &mut Words) -> Result<Token, CaseStop> {
    let table = read_table(words)?;
    let key = words.key(alloc)?;
    Ok(Token::Key { table, key })
}

fn read_unique(words: &mut Words) -> Result<Token, CaseStop> {
    let table = read_table(words)?;
    Ok(Token::Unique { table })
}

fn read_token(alloc: Global, words: &mut Words) -> Result<Token, CaseStop> {
    match words.word()? {
        b"row" => read_row(alloc, words),
        b"unique" => read_unique(words),
        _ => Err(CaseStop::NoCase),
    }
}

/// The tokens up to the end of the line.
fn read_tokens(alloc: Global, words: &mut Words) -> Result<Tokens, CaseStop> {
    let mut list = Items::new(alloc);
    for _ in 0..u64::MAX {
        if words.is_done() {
            break;
        }
        list.push(read_token(alloc, words)?)?;
    }
    Ok(Tokens { list })
}

fn note_text(alloc: Global, position: u64, dep: u64) -> Result<String, CaseStop> {
    Ok(format!(in alloc; "position {position} dep {dep}")?)
}

fn note(alloc: Global, index: &mut Index, words: &mut Words) -> Result<String, CaseStop> {
    let site = words.site()?;
    let tokens = read_tokens(alloc, words)?;
    match note_next(index, &site, &tokens)? {
        Some(dep) => note_text(alloc, index.count(&site), dep),
        None => text(alloc, "refused"),
    }
}

fn agreed_text(alloc: Global, agreed: u64) -> Result<String, CaseStop> {
    Ok(format!(in alloc; "{agreed} notes agree")?)
}

fn compare(alloc: Global, words: &mut Words) -> Result<String, CaseStop> {
    let count = words.whole()?;
    let keys = words.whole()?;
    words.end()?;
    match compared(alloc, count, keys)? {
        Some(agreed) => agreed_text(alloc, agreed),
        None => Err(CaseStop::NoCase),
    }
}

/// Begins with an empty index for the sites of the line.
fn begin(alloc: Global, index: &mut Index, words: &mut Words) -> Result<Option<String>, CaseStop> {
    let sites = read_sites(alloc, words)?;
    *index = Index::make(alloc, sites.as_slice())?;
    Ok(None)
}

/// The outcome of a line of this kind.
pub fn outcome(
    alloc: Global,
    index: &mut Index,
    kind: &[u8],
    words: &mut Words,
) -> Result<Option<String>, CaseStop> {
    match kind {
        b"index" => begin(alloc, index, words),
        b"note" => note(alloc, index, words).map(Some),
        _ => compare(alloc, words).map(Some),
    }
}
