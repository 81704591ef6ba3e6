//! Generated streams, and their dependency numbers by a scan of all earlier positions.

use crate::indexes::note_next;
use dependency_index::{Index, Token, Tokens};
use rep_lists::{Items, NoMemory};
use rep_values::{Key, Name, SiteName, Value};
use std::alloc::Global;

/// Numbers that look random and are the same in each run.
#[derive(Clone, Copy)]
struct Numbers {
    state: u64,
}

impl Numbers {
    /// A number below a bound.
    fn below(&mut self, bound: u64) -> u64 {
        self.state = self
            .state
            .wrapping_mul(6364136223846793005)
            .wrapping_add(1442695040888963407);
        if bound == 0 {
            0
        } else {
            (self.state >> 33) % bound
        }
    }
}

/// A row of one of four tables, or, once in eight times, the constraints of one.
fn token(numbers: &mut Numbers, keys: u64) -> Option<Token> {
    let table = u32::try_from(numbers.below(4)).ok()?;
    let id = i64::try_from(numbers.below(keys)).ok()?;
    if numbers.below(8) == 0 {
        return Some(Token::Unique { table });
    }
    let key = Key::of(&[Value::Num(id), Value::Num(7)])?;
    Some(Token::Key { table, key })
}

/// The tokens of a transaction of one to three.
fn tokens(alloc: Global, numbers: &mut Numbers, keys: u64) -> Result<Tokens, NoMemory> {
    let mut list = Items::new(alloc);
    for _ in 0..numbers.below(3).saturating_add(1) {
        if let Some(token) = token(numbers, keys) {
            list.push(token)?;
        }
    }
    Ok(Tokens { list })
}

fn share(tokens: &Tokens, others: &Tokens) -> bool {
    for token in tokens.list.as_slice() {
        for other in others.list.as_slice() {
            if token.is_same(other) {
                return true;
            }
        }
    }
    false
}

/// The greatest position of a stream that shares a token, or 0.
fn scanned(stream: &[Tokens], tokens: &Tokens) -> u64 {
    for place in (0..stream.len()).rev() {
        if share(&stream[place], tokens) {
            return place as u64 + 1;
        }
    }
    0
}

/// The transactions of a stream to a site.
#[derive(Drop)]
struct Stream {
    to: SiteName,
    sent: Vec<Tokens>,
}

impl Stream {
    fn new(alloc: Global, to: SiteName) -> Stream {
        Stream {
            to,
            sent: Vec::new(alloc),
        }
    }

    /// Notes a transaction; whether the index and the scan tell the same.
    fn agrees(&mut self, index: &mut Index, tokens: Tokens) -> Result<bool, NoMemory> {
        let expected = scanned(self.sent.as_slice(), &tokens);
        let found = note_next(index, &self.to, &tokens)?;
        self.sent.push(tokens)?;
        Ok(found == Some(expected))
    }
}

/// Generated transactions over so many keys, noted in an index, and how many of the notes agree with a scan.
#[derive(Drop)]
struct Comparison {
    index: Index,
    numbers: Numbers,
    keys: u64,
    agreed: u64,
}

impl Comparison {
    fn new(alloc: Global, sites: &[SiteName], keys: u64) -> Result<Comparison, NoMemory> {
        let index = Index::make(alloc, sites)?;
        Ok(Comparison {
            index,
            numbers: Numbers { state: 1 },
            keys,
            agreed: 0,
        })
    }

    /// Notes the next transaction in a stream.
    fn note(&mut self, alloc: Global, stream: &mut Stream) -> Result<(), NoMemory> {
        let tokens = tokens(alloc, &mut self.numbers, self.keys)?;
        if stream.agrees(&mut self.index, tokens)? {
            self.agreed = self.agreed.saturating_add(1);
        }
        Ok(())
    }

    /// Notes so many transactions: of each three the first in the one stream, the second in the other, the third in both.
    fn note_all(
        &mut self,
        alloc: Global,
        count: u64,
        first: &mut Stream,
        second: &mut Stream,
    ) -> Result<(), NoMemory> {
        for number in 0..count {
            if number % 3 != 1 {
                self.note(alloc, first)?;
            }
            if number % 3 != 0 {
                self.note(alloc, second)?;
            }
        }
        Ok(())
    }
}

/// How many notes agree with the scans of the streams to two sites.
fn compared_for(
    alloc: Global,
    sites: [SiteName; 2],
    count: u64,
    keys: u64,
) -> Result<u64, NoMemory> {
    let mut comparison = Comparison::new(alloc, &sites, keys)?;
    let mut first = Stream::new(alloc, sites[0]);
    let mut second = Stream::new(alloc, sites[1]);
    comparison.note_all(alloc, count, &mut first, &mut second)?;
    Ok(comparison.agreed)
}

/// How many notes of so many transactions agree, over so many keys; every third transaction goes to both of two sites.
pub fn compared(alloc: Global, count: u64, keys: u64) -> Result<Option<u64>, NoMemory> {
    match (Name::of(b"B"), Name::of(b"C")) {
        (Some(b), Some(c)) => {
            let sites = [SiteName(b), SiteName(c)];
            Ok(Some(compared_for(alloc, sites, count, keys)?))
        }
        _ => Ok(None),
    }
}
