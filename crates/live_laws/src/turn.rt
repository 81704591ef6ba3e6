//! The turns of a live part, and the blocks of its sessions.

use rep_calls::Statement;
use rep_lists::Items;
use rep_values::{ApplyError, Refusal, SiteName};

/// What a session is told of its block.
#[derive(Clone, Copy)]
pub enum Reply {
    /// The block is queued, under this number.
    Commit(u64),
    /// No row changed, and nothing is queued.
    Nothing,
    /// A statement is refused, and with it the whole block.
    Refused {
        /// The line of that statement.
        line: u32,
        /// Why it is refused.
        refusal: Refusal,
    },
}

/// One turn at a site.
#[derive(Clone, Copy)]
pub enum LiveTurn {
    /// What arrived at a position is applied.
    Applied {
        /// The site that sent it.
        origin: SiteName,
        /// The position in that site's stream.
        position: u64,
        /// The call that failed, from 1; 0 where none did.
        call: u32,
        /// Why that call failed. None where all is done.
        error: Option<ApplyError>,
    },
    /// A block of a session is committed, or refused.
    Committed {
        /// The session, from 1.
        session: u32,
        /// The block in its session, from 1.
        block: u32,
        /// What the session is told of it.
        reply: Reply,
    },
}

/// A block of a session.
#[derive(Drop)]
pub struct Block {
    /// The line of each statement.
    pub lines: Items<u32>,
    /// The statements in their order.
    pub statements: Items<Statement>,
}

/// One session of a live part.
#[derive(Drop)]
pub struct Session {
    /// Its blocks in their order.
    pub blocks: Items<Block>,
}
