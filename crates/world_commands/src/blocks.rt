//! Blocks of statements.
ghost use Rattle.std.specs.Prelude.{◌≡◌, ◌≤◌, ◌-◌, ◌⊎◌, ◌++◌, ◌∷◌, [], None, Some, slice_get, IfOk, IfErr, OnOk, OnErr};
ghost use Rattle.rep_values.specs.declared.refusal.Refusal.TheVariants as refusal;
ghost use Rattle.site_state.specs.Commits.{site_commit, commit_answer};
ghost use Rattle.site_events.specs.Cluster.{site_of, at_site};
ghost use Rattle.world_state.specs.Blocks.{stated_more, stop_at_site, line_in};
ghost use Rattle.world_state.specs.Answers.{number_there, answered_number};
ghost use Rattle.report_text.specs.Sheet.{Appends, most_line};
ghost use Rattle.world.specs.Precheck.{precheck_refusal};
ghost use Rattle.world.specs.Outcomes.{committed};
ghost use Rattle.world.specs.Texts.{committed_text};
ghost use Rattle.world.specs.Doing.{Does, at_line, DoesAnywhere};

use page_tables::PageTables;
use rep_calls::Statement;
use rep_lists::{Copies, Items, NoMemory};
use rep_values::{Refusal, SiteName};
use report_text::{Lines, commit_line, nothing_committed_line};
use script_parse::Command;
use site_engine::Site;
use std::alloc::Global;
use txn_effects::LocalStop;
use world::{Answer, CommandStop, Outcome, WorldParts, drop_last, place_of, room_for_line};
use world_state::{Block, Refused};

/// So many statements, and one more, are kept.
const MOST_STATEMENTS: usize = 1_000;

/// `txn`
pub fn open_block(
    parts: &mut WorldParts,
    alloc: Global,
    site: &SiteName,
) -> Result<Answer, CommandStop>
    requires passes { precheck_refusal (Command.Txn site.now) parts.old ≡ None }
    ensures { DoesAnywhere (Command.Txn site.now) parts.old parts.new result }
{
    parts.block = Some(Block {
        site: *site,
        lines: Items::new(alloc),
        statements: Items::new(alloc),
    });
    Ok(Answer::nothing(alloc))
}

/// Keeps a statement and its line, or neither where there is no memory.
fn keep_statement(
    block: &mut Block,
    alloc: Global,
    line: u32,
    statement: &Statement,
) -> Result<(), NoMemory>
    ensures ok { OnOk result (block.new ≡ stated_more line statement.now block.old) }
    ensures kept { OnErr result (block.new ≡ block.old) }
{
    if block.statements.len() > MOST_STATEMENTS {
        return Ok(());
    }
    let copied = statement.copy(alloc)?;
    block.lines.push(line)?;
    let Ok(()) = block.statements.push(copied) else {
        drop_last(&mut block.lines, alloc);
        return Err(NoMemory);
    };
    Ok(())
}

/// A statement. One behind the first that is too many isn't kept.
pub fn add_statement(
    parts: &mut WorldParts,
    alloc: Global,
    line: u32,
    statement: &Statement,
) -> Result<Answer, CommandStop>
    requires passes { precheck_refusal (Command.Statement statement.now) parts.old ≡ None }
    ensures { Does line (Command.Statement statement.now) parts.old parts.new (at_line line result) }
{
    let Some(block) = &mut parts.block else {
        unreachable!()
    };
    let Ok(()) = keep_statement(block, alloc, line, statement) else {
        return Err(CommandStop::Memory);
    };
    Ok(Answer::nothing(alloc))
}

/// `abandon`
pub fn abandon(parts: &mut WorldParts, alloc: Global) -> Result<Answer, CommandStop>
    requires passes { precheck_refusal Command.Abandon parts.old ≡ None }
    ensures { DoesAnywhere Command.Abandon parts.old parts.new result }
{
    parts.block = None;
    Ok(Answer::nothing(alloc))
}

/// There is no memory for a block.
fn no_memory_for_block() -> LocalStop
    ensures { result ≡ record { statement = 0; refusal = refusal.Memory } }
{
    LocalStop {
        statement: 0,
        refusal: Refusal::Memory,
    }
}

/// Commits a block at its site. Where that isn't there nothing happens.
fn commit_block(
    sites: &mut Vec<Site<PageTables>>,
    alloc: Global,
    block: &Block,
) -> Result<u64, LocalStop>
    ensures ok { OnOk result (sites.new.items ≡ at_site block.now.site (site_commit block.now.statements) sites.old.items) }
    ensures passes { OnOk result (stop_at_site block.now.statements (site_of block.now.site sites.old.items) ≡ None) }
    ensures number { IfOk result (λ number. number ≡ number_there (λ x. answered_number (commit_answer block.now.statements x)) (site_of block.now.site sites.old.items)) }
    ensures err { IfErr result (λ stop. (stop ≡ record { statement = 0; refusal = refusal.Memory })
        ⊎ (stop_at_site block.now.statements (site_of block.now.site sites.old.items) ≡ Some stop)) }
    ensures kept { OnErr result (sites.new.items ≡ sites.old.items) }
{
    let Some(place) = place_of(sites, &block.site) else {
        return Ok(0);
    };
    // No machine gets so far.
    if sites[place].moment() == u64::MAX {
        return Err(no_memory_for_block());
    }
    let number = sites[place].commit(alloc, block.statements.as_slice())?;
    Ok(number)
}

/// A commit's number, or that nothing was committed.
fn put_committed(lines: &mut Lines, site: SiteName, number: u64)
    requires { most_line ≤ lines.old.room }
    ensures { Appends lines.old lines.new (committed_text site number) }
{
    if number == 0 {
        nothing_committed_line(lines, site);
    } else {
        commit_line(lines, site, number);
    }
}

/// A commit under a number, or one that changes no row.
fn committed(number: u64) -> Outcome
    ensures { result ≡ committed number }
{
    if number == 0 {
        Outcome::NothingCommitted
    } else {
        Outcome::Committed { number }
    }
}

/// The line of a statement of a block, from 1; the commit's where it has none.
fn line_of(block: &Block, line: u32, statement: u32) -> u32
    ensures { result ≡ line_in line (slice_get block.now.lines (statement - 1)) }
{
    match block
        .lines
        .as_slice()
        .get(statement.saturating_sub(1) as usize)
    {
        Some(stated) => *stated,
        None => line,
    }
}

/// `commit`. Where a statement is refused, the block is closed too.
pub fn commit(parts: &mut WorldParts, alloc: Global, line: u32) -> Result<Answer, CommandStop>
    requires passes { precheck_refusal Command.Commit parts.old ≡ None }
    ensures { Does line Command.Commit parts.old parts.new (at_line line result) }
{
    let Ok(mut lines) = room_for_line(alloc) else {
        return Err(CommandStop::Memory);
    };
    let Some(block) = &parts.block else {
        unreachable!()
    };
    let number = match commit_block(&mut parts.sites, alloc, block) {
        Ok(number) => number,
        Err(stop) => {
            if stop.statement == 0 {
                return Err(CommandStop::Memory);
            }
            let told = line_of(block, line, stop.statement);
            parts.block = None;
            return Err(CommandStop::RefusedAt(Refused {
                line: told,
                refusal: stop.refusal,
            }));
        }
    };
    put_committed(&mut lines, block.site, number);
    parts.block = None;
    Ok(Answer {
        lines,
        outcome: committed(number),
    })
}
