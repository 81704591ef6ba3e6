//! The live part of a script, line by line.
ghost use Rattle.std.specs.Prelude.{◌≡◌, [], nat_lt, length, OnOk, IfOk};
ghost use Rattle.world_run.specs.LiveParts.{most_sessions, stated_more, stated, block_ended, new_part, sessions_of};
ghost use Rattle.world_run.specs.LiveAnswers.{AnswersInSession, AnswersTaken, AnswersSession};

use live_laws::{Block, LiveTurn, Session};
use rep_calls::Statement;
use rep_lists::{Copies, Items, NoMemory};
use rep_values::{Limit, Refusal, SiteName};
use script_parse::Command;
use std::alloc::Global;
use std::marker::Model;
use std::mem;
use std::snapshot::Snapshot;
use world_run::World;

/// So many statements of a block, and one more, are kept.
const MOST_STATEMENTS: usize = 1_000;

/// The most sessions of a part.
const MOST_SESSIONS: usize = 8;

/// The session that stands: its blocks that were ended, and the one that is open. That keeps one statement more than a block may
/// have, so that the line of that one is known.
#[derive(Drop)]
pub struct OpenSession {
    blocks: Items<Block>,
    block: Block,
}

impl Model for OpenSession {
    ghost use Rattle.world_run.specs.declared.live_part.OpenSession.{OpenSession as EngineSession};

    ghost Value = { EngineSession };

    ghost view = { λ s. record { blocks = s.blocks; block = s.block } };
}

/// A live part whose end didn't come yet: its site, the sessions before the one that stands, and that one.
#[derive(Drop)]
pub struct OpenPart {
    pub site: SiteName,
    earlier: Items<Session>,
    session: Option<OpenSession>,
}

impl Model for OpenPart {
    ghost use Rattle.world_run.specs.declared.live_part.OpenPart.{OpenPart as EnginePart};

    ghost Value = { EnginePart };

    ghost view = { λ p. record { site = p.site; earlier = p.earlier; session = p.session } };
}

/// A live part that was run. Only contracts look at what it was.
#[derive(Drop)]
pub struct EndedPart {
    pub site: SiteName,
    pub before: Snapshot<World>,
    pub sessions: Snapshot<Items<Session>>,
    pub turns: Snapshot<Items<LiveTurn>>,
}

impl Model for EndedPart {
    ghost use Rattle.world_run.specs.Ended.{RanPart};

    ghost Value = { RanPart };

    ghost view = { λ e. record { site = e.site; before = e.before.value.world; sessions = e.sessions.value; turns = e.turns.value } };
}

/// How far the live part of a script is.
#[derive(Drop)]
pub enum Part {
    /// No part was opened.
    NotYet,
    /// A part is open.
    Open(OpenPart),
    /// The part was run.
    Ended(EndedPart),
}

/// A block without a statement.
fn empty_block(alloc: Global) -> Block
    ensures { result ≡ record { lines = []; statements = [] } }
{
    Block {
        lines: Items::new(alloc),
        statements: Items::new(alloc),
    }
}

/// Keeps a statement and its line.
fn keep_statement(
    block: &mut Block,
    alloc: Global,
    number: u32,
    statement: &Statement,
) -> Result<(), NoMemory>
    ensures { OnOk result (block.new ≡ stated_more number statement.now block.old) }
{
    if block.statements.len() > MOST_STATEMENTS {
        return Ok(());
    }
    let statement = statement.copy(alloc)?;
    block.lines.push(number)?;
    block.statements.push(statement)
}

impl OpenSession {
    /// A session without a block.
    fn new(alloc: Global) -> OpenSession
        ensures { result ≡ record { blocks = []; block = record { lines = []; statements = [] } } }
    {
        OpenSession {
            blocks: Items::new(alloc),
            block: empty_block(alloc),
        }
    }

    /// Keeps a statement in the open block.
    fn state(&mut self, alloc: Global, number: u32, statement: &Statement) -> Result<(), NoMemory>
        ensures { OnOk result (self.new ≡ stated number statement.now self.old) }
    {
        keep_statement(&mut self.block, alloc, number, statement)
    }

    /// Ends the open block.
    fn end_block(&mut self, alloc: Global) -> Result<(), NoMemory>
        ensures { OnOk result (self.new ≡ block_ended self.old) }
    {
        let block = mem::replace(&mut self.block, empty_block(alloc));
        self.blocks.push(block)
    }
}

impl OpenPart {
    /// A part at a site that has no session yet.
    pub fn new(alloc: Global, site: SiteName) -> OpenPart
        ensures { result ≡ new_part site }
    {
        OpenPart {
            site,
            earlier: Items::new(alloc),
            session: None,
        }
    }

    /// The site of the part.
    pub fn site(&self) -> SiteName
        ensures { result ≡ self.now.site }
    {
        self.site
    }

    /// Keeps a statement in the open block of the session that stands.
    fn state(
        &mut self,
        alloc: Global,
        number: u32,
        statement: &Statement,
    ) -> Result<Option<Refusal>, NoMemory>
        ensures { IfOk result (λ refusal. AnswersInSession (stated number statement.now) self.old self.new refusal) }
    {
        let Some(session) = &mut self.session else {
            return Ok(Some(Refusal::WrongPhase));
        };
        session.state(alloc, number, statement)?;
        Ok(None)
    }

    /// Ends the open block of the session that stands.
    fn commit(&mut self, alloc: Global) -> Result<Option<Refusal>, NoMemory>
        ensures { IfOk result (λ refusal. AnswersInSession block_ended self.old self.new refusal) }
    {
        let Some(session) = &mut self.session else {
            return Ok(Some(Refusal::WrongPhase));
        };
        session.end_block(alloc)?;
        Ok(None)
    }

    /// Takes a line that every script may have, or tells why it is refused.
    pub fn take(
        &mut self,
        alloc: Global,
        number: u32,
        command: &Command,
    ) -> Result<Option<Refusal>, NoMemory>
        ensures { IfOk result (λ refusal. AnswersTaken number command.now self.old self.new refusal) }
    {
        match command {
            Command::Nothing => Ok(None),
            Command::Statement(statement) => self.state(alloc, number, statement),
            Command::Commit => self.commit(alloc),
            _ => Ok(Some(Refusal::WrongPhase)),
        }
    }

    /// The session that stands is ended, and stands behind those before it.
    fn end_session(&mut self) -> Result<(), NoMemory>
        ensures { OnOk result (self.new ≡ record { site = self.old.site; earlier = sessions_of self.old; session = None }) }
    {
        match mem::replace(&mut self.session, None) {
            Some(session) => self.earlier.push(Session {
                blocks: session.blocks,
            }),
            None => Ok(()),
        }
    }

    /// Whether there are fewer sessions than there may be.
    fn has_room(&self) -> bool
        ensures { result ≡ nat_lt (length (sessions_of self.now)) most_sessions }
    {
        let earlier = self.earlier.len();
        match &self.session {
            None => earlier < MOST_SESSIONS,
            Some(_) => earlier < MOST_SESSIONS - 1,
        }
    }

    /// Begins the next session, or tells that there are as many as there may be.
    pub fn begin_session(&mut self, alloc: Global) -> Result<Option<Refusal>, NoMemory>
        ensures { IfOk result (λ refusal. AnswersSession self.old self.new refusal) }
    {
        if !self.has_room() {
            return Ok(Some(Refusal::LimitReached(Limit::Sessions)));
        }
        self.end_session()?;
        self.session = Some(OpenSession::new(alloc));
        Ok(None)
    }

    /// All its sessions. An open block is dropped.
    pub fn into_sessions(self) -> Result<Items<Session>, NoMemory>
        ensures { IfOk result (λ sessions. sessions ≡ sessions_of self) }
    {
        let mut part = self;
        part.end_session()?;
        let OpenPart { earlier, .. } = part;
        Ok(earlier)
    }
}
