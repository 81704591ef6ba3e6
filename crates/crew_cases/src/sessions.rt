//! Sessions as lines.
ghost use Rattle.std.specs.Prelude.{◌≤◌, length, IfOk};

use case_reader::{CaseStop, Words, read_statement};
use live_laws::{Block, Session};
use rep_calls::Statement;
use rep_lists::Items;
use script_lex::lex;
use std::alloc::Global;

/// A block of a session as text.
#[derive(Drop)]
struct Written {
    session: u32,
    statements: String,
}

/// The blocks of sessions as text, and how many sessions there are.
#[derive(Drop)]
pub struct SessionLines {
    blocks: Vec<Written>,
    count: u32,
}

/// The statement that a text is; none where it has no word.
fn statement_of(alloc: Global, text: &str) -> Result<Option<Statement>, CaseStop> {
    let tokens = lex(alloc, text.as_bytes())?;
    let mut words = Words::of(tokens.as_slice());
    if words.is_done() {
        return Ok(None);
    }
    Ok(Some(read_statement(alloc, &mut words)?))
}

/// The block whose statements stand between `/`. The line of each is ten times its number.
fn block_of(alloc: Global, statements: &str) -> Result<Block, CaseStop> {
    let mut lines = Items::new(alloc);
    let mut kept = Items::new(alloc);
    let mut line: u32 = 0;
    for text in statements.split('/') {
        if let Some(statement) = statement_of(alloc, text)? {
            line = line.saturating_add(10);
            lines.push(line)?;
            kept.push(statement)?;
        }
    }
    Ok(Block {
        lines,
        statements: kept,
    })
}

impl SessionLines {
    /// There is no session.
    pub fn new(alloc: Global) -> SessionLines {
        SessionLines {
            blocks: Vec::new(alloc),
            count: 0,
        }
    }

    /// A session by its number, from 1 to 8.
    fn count_session(&mut self, number: &str) -> Result<u32, CaseStop> {
        let Ok(session) = number.parse::<u32>() else {
            return Err(CaseStop::NoCase);
        };
        if session < 1 || session > 8 {
            return Err(CaseStop::NoCase);
        }
        self.count = self.count.max(session);
        Ok(session)
    }

    /// `SESSION`: there is a session of this number, and each one before it. `SESSION / STATEMENT / STATEMENT ..`: it has one
    /// block more.
    pub fn take(&mut self, alloc: Global, words: &str) -> Result<(), CaseStop> {
        let Some((number, statements)) = words.split_once(" /") else {
            self.count_session(words)?;
            return Ok(());
        };
        let session = self.count_session(number)?;
        let statements = format!(in alloc; "{statements}")?;
        self.blocks.push(Written {
            session,
            statements,
        })?;
        Ok(())
    }

    /// The session of a number.
    fn session(&self, alloc: Global, session: u32) -> Result<Session, CaseStop> {
        let mut blocks = Items::new(alloc);
        for written in &self.blocks {
            if written.session == session {
                blocks.push(block_of(alloc, written.statements.as_str())?)?;
            }
        }
        Ok(Session { blocks })
    }

    /// The sessions.
    pub fn sessions(&self, alloc: Global) -> Result<Items<Session>, CaseStop>
        ensures { IfOk result (λ sessions. length sessions ≤ 8) }
    {
        let mut sessions = Items::new(alloc);
        for session in 1..=self.count {
            sessions.push(self.session(alloc, session)?)?;
        }
        // No line counts more; the check of this function asks.
        if sessions.len() > 8 {
            return Err(CaseStop::NoCase);
        }
        Ok(sessions)
    }
}
