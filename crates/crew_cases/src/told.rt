//! What the input declares, and the blocks that it has.
ghost use Rattle.std.specs.Prelude.{◌≤◌, length, IfOk};
ghost use Rattle.rep_schema.specs.Shape.{HasShape};

use crate::blocks::{Block, block_of, numbered, repeated};
use crate::noting::Puts;
use crate::pair::Pair;
use crate::sessions::SessionLines;
use case_reader::{CaseStop, Words, declare};
use live_laws::Session;
use rep_lists::Items;
use rep_schema::Schema;
use rep_values::{ApplyError, Refusal, SiteName};
use script_lex::lex;
use std::alloc::Global;
use std::marker::Model;
use std::sync::Arc;

/// A schema, and blocks, of which the first so many are applied before the pass of the case; and the sessions of a live part.
#[derive(Drop)]
pub struct Told {
    schema: Schema,
    blocks: Vec<Block>,
    applied: usize,
    sessions: SessionLines,
}

impl Model for Told {
    ghost use Rattle.rep_schema.specs.declared.schema.Schema.{Schema as SchemaValue};
    ghost use Rattle.rep_schema.specs.Shape.{HasShape};

    ghost Value = { SchemaValue };

    ghost view = { λ t. t.schema };

    ghost invariant = { λ t. HasShape t.schema };
}

/// Adds a declaration.
fn add_declaration(alloc: Global, schema: &mut Schema, words: &mut Words) -> Result<(), CaseStop>
    requires { HasShape schema.old }
    ensures { HasShape schema.new }
{
    let why: Option<Refusal> = declare(alloc, schema, words)?;
    // No declaration has this refusal; the check of this function asks that the error's type is named.
    if let Some(Refusal::StillFails(ApplyError::NoRow)) = why {
        return Err(CaseStop::NoCase);
    }
    match why {
        None => Ok(()),
        Some(_) => Err(CaseStop::NoCase),
    }
}

impl Told {
    /// Nothing is declared, and there is no block.
    pub fn new(alloc: Global) -> Told {
        Told {
            schema: Schema::empty(alloc),
            blocks: Vec::new(alloc),
            applied: 0,
            sessions: SessionLines::new(alloc),
        }
    }

    /// The first position that isn't applied before.
    pub fn first(&self) -> u64 {
        (self.applied as u64).saturating_add(1)
    }

    /// A block of so many statements, in each of which its number stands for `%`.
    fn add_block(&mut self, alloc: Global, count: u64, line: &str) -> Result<(), CaseStop> {
        self.blocks.push(block_of(alloc, count, line)?)?;
        Ok(())
    }

    fn add_declared(&mut self, alloc: Global, line: &str) -> Result<(), CaseStop> {
        let tokens = lex(alloc, line.as_bytes())?;
        add_declaration(alloc, &mut self.schema, &mut Words::of(tokens.as_slice()))
    }

    /// A block of one statement, in which a number stands for `%`.
    fn add_numbered(&mut self, alloc: Global, number: u64, line: &str) -> Result<(), CaseStop> {
        let statement = numbered(alloc, number, line)?;
        self.add_block(alloc, 1, statement.as_str())
    }

    /// `* COUNT STATEMENT`: so many blocks, in each of which its number stands for `%`.
    fn add_blocks(&mut self, alloc: Global, words: &str) -> Result<(), CaseStop> {
        let Some((count, line)) = repeated(words) else {
            return Err(CaseStop::NoCase);
        };
        for number in 1..=count {
            self.add_numbered(alloc, number, line)?;
        }
        Ok(())
    }

    /// `block COUNT STATEMENT`: a block of so many statements.
    fn add_long_block(&mut self, alloc: Global, words: &str) -> Result<(), CaseStop> {
        match repeated(words) {
            Some((count, line)) => self.add_block(alloc, count, line),
            None => Err(CaseStop::NoCase),
        }
    }

    /// What was told by now is applied before the pass of the case.
    fn apply(&mut self) -> Result<(), CaseStop> {
        self.applied = self.blocks.len();
        Ok(())
    }

    /// Takes in a declaration, a statement, `* COUNT STATEMENT`, `block COUNT STATEMENT`, `apply`, or a
    /// `session` with or without a block.
    pub fn take_line(&mut self, alloc: Global, line: &str) -> Result<(), CaseStop> {
        let (kind, words) = line.split_once(' ').unwrap_or((line, ""));
        match kind.as_bytes() {
            b"insert" | b"update" | b"delete" => self.add_block(alloc, 1, line),
            b"*" => self.add_blocks(alloc, words),
            b"block" => self.add_long_block(alloc, words),
            b"apply" => self.apply(),
            b"session" => self.sessions.take(alloc, words),
            _ => self.add_declared(alloc, line),
        }
    }

    /// The sessions of a live part.
    pub fn sessions(&self, alloc: Global) -> Result<Items<Session>, CaseStop>
        ensures { IfOk result (λ sessions. length sessions ≤ 8) }
    {
        self.sessions.sessions(alloc)
    }

    /// The names of the first two sites.
    fn names(&self) -> Option<(SiteName, SiteName)> {
        let sites = self.schema.sites.as_slice();
        Some((sites.get(0)?.name, sites.get(1)?.name))
    }

    /// The first two sites, of which the first one has committed the blocks and the other one has their packets.
    pub fn pair(&self, alloc: Global, puts: Arc<Puts>) -> Result<Pair, CaseStop> {
        let Some(names) = self.names() else {
            return Err(CaseStop::NoCase);
        };
        let mut pair = Pair::open(alloc, &self.schema, names, puts)?;
        pair.run(alloc, &self.blocks, self.applied)?;
        Ok(pair)
    }
}
