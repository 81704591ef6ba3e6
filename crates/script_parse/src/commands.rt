//! The forms of all other commands.
ghost use Rattle.std.specs.Prelude.{codes, IfOk};
ghost use Rattle.script_words.specs.Reading.{optional};
ghost use Rattle.script_words.specs.Parts.{name, whole_number, choice};
ghost use Rattle.script_words.specs.Readers.{ReadsExactly, Takes};
ghost use Rattle.script_parse.specs.Parts.{links, refreshes, shown_words};
ghost use Rattle.script_parse.specs.Named.{NamesColumn};
ghost use Rattle.script_parse.specs.Rows.{snapshot_row, subsnapshot_row, is_column_name, row_row, insert_row, update_row, delete_row, txn_row, push_row, fates_behind, fate_row, link_row, clock_row, purge_row, execute_row, drop_error_row, refresh_row, purge_log_row, join_row, show_row};

use crate::conditions::where_tests;
use crate::parts::{FatePart, SetPart, site, table};
use crate::{Command, Link, ParentWords, Refresh, Shown};
use rep_calls::Statement;
use rep_values::{Name, SiteName};
use script_lex::{BrokenRule, LineStop};
use script_words::{Part, Reader, ValuePart, one_or_more, separated};
use std::alloc::Global;

/// `snapshot NAME NAME [where TEST [and TEST]..]`
pub fn snapshot_form(alloc: Global, tokens: &mut Reader<'_>) -> Result<Command, LineStop>
    ensures read { Takes snapshot_row result tokens.old tokens.new }
    ensures named { IfOk result NamesColumn }
{
    let site = site(tokens)?;
    let table = table(tokens)?;
    let tests = where_tests(alloc, tokens)?;
    Ok(Command::Snapshot {
        site,
        table,
        parent: None,
        tests,
    })
}

/// A name in front of the word `where`.
struct ColumnPart;

impl Part for ColumnPart {
    type Item = Name;

    ghost starts = { is_column_name };

    ghost reading = { name };

    fn is_next(tokens: &Reader<'_>) -> bool {
        tokens.is_at_name() && !tokens.is_at(b"where")
    }

    fn read(tokens: &mut Reader<'_>) -> Result<Name, BrokenRule> {
        tokens.name()
    }
}

/// `subsnapshot NAME NAME parent NAME by NAME+ [where TEST [and TEST]..]`
pub fn subsnapshot_form(alloc: Global, tokens: &mut Reader<'_>) -> Result<Command, LineStop>
    ensures read { Takes subsnapshot_row result tokens.old tokens.new }
    ensures named { IfOk result NamesColumn }
{
    let site = site(tokens)?;
    let own = table(tokens)?;
    tokens.expect(b"parent")?;
    let parents = table(tokens)?;
    tokens.expect(b"by")?;
    let columns = one_or_more::<ColumnPart>(alloc, tokens);
    if let Err(LineStop::Rule(rule)) = columns {
        return Err(LineStop::Rule(rule));
    }
    let tests = where_tests(alloc, tokens)?;
    let columns = columns?;
    Ok(Command::Snapshot {
        site,
        table: own,
        parent: Some(ParentWords {
            table: parents,
            columns,
        }),
        tests,
    })
}

/// `row NAME VALUE+`
pub fn row_form(alloc: Global, tokens: &mut Reader<'_>) -> Result<Command, LineStop>
    ensures read { Takes row_row result tokens.old tokens.new }
    ensures named { IfOk result NamesColumn }
{
    let table = table(tokens)?;
    let values = one_or_more::<ValuePart>(alloc, tokens)?;
    Ok(Command::Row { table, values })
}

/// `insert NAME VALUE+`
pub fn insert_form(alloc: Global, tokens: &mut Reader<'_>) -> Result<Command, LineStop>
    ensures read { Takes insert_row result tokens.old tokens.new }
    ensures named { IfOk result NamesColumn }
{
    let table = table(tokens)?;
    let values = one_or_more::<ValuePart>(alloc, tokens)?;
    Ok(Command::Statement(Statement::Insert { table, values }))
}

/// `update NAME VALUE+ : SET [, SET]..`. Where the key finds no memory, the sets are read all the same, so that no broken
/// rule is hidden.
pub fn update_form(alloc: Global, tokens: &mut Reader<'_>) -> Result<Command, LineStop>
    ensures read { Takes update_row result tokens.old tokens.new }
    ensures named { IfOk result NamesColumn }
{
    let table = table(tokens)?;
    let key = one_or_more::<ValuePart>(alloc, tokens);
    if let Err(LineStop::Rule(rule)) = key {
        return Err(LineStop::Rule(rule));
    }
    tokens.expect(b":")?;
    let sets = separated::<SetPart>(alloc, b",", tokens)?;
    let key = key?;
    Ok(Command::Statement(Statement::Update { table, key, sets }))
}

/// `delete NAME VALUE+`
pub fn delete_form(alloc: Global, tokens: &mut Reader<'_>) -> Result<Command, LineStop>
    ensures read { Takes delete_row result tokens.old tokens.new }
    ensures named { IfOk result NamesColumn }
{
    let table = table(tokens)?;
    let key = one_or_more::<ValuePart>(alloc, tokens)?;
    Ok(Command::Statement(Statement::Delete { table, key }))
}

/// `txn NAME`
pub fn txn_form(tokens: &mut Reader<'_>) -> Result<Command, BrokenRule>
    ensures read { ReadsExactly txn_row result tokens.old tokens.new }
    ensures named { IfOk result NamesColumn }
{
    let site = site(tokens)?;
    Ok(Command::Txn { site })
}

/// `[count WHOLE]`
fn count_group(tokens: &mut Reader<'_>) -> Result<Option<u64>, BrokenRule>
    ensures { ReadsExactly (optional (codes "count") whole_number) result tokens.old tokens.new }
{
    if !tokens.passes(b"count") {
        return Ok(None);
    }
    Ok(Some(tokens.whole_number()?))
}

/// `push NAME NAME [count WHOLE]`
pub fn push_form(tokens: &mut Reader<'_>) -> Result<Command, BrokenRule>
    ensures read { ReadsExactly push_row result tokens.old tokens.new }
    ensures named { IfOk result NamesColumn }
{
    let from = site(tokens)?;
    let to = site(tokens)?;
    let count = count_group(tokens)?;
    Ok(Command::Push { from, to, count })
}

/// `clear` or `FATE+`
fn fates_behind(
    alloc: Global,
    from: SiteName,
    to: SiteName,
    tokens: &mut Reader<'_>,
) -> Result<Command, LineStop>
    ensures read { Takes (fates_behind from to) result tokens.old tokens.new }
    ensures named { IfOk result NamesColumn }
{
    if tokens.passes(b"clear") {
        return Ok(Command::ClearFates { from, to });
    }
    let fates = one_or_more::<FatePart>(alloc, tokens)?;
    Ok(Command::Fates { from, to, fates })
}

/// `fate NAME NAME FATE+` or `fate NAME NAME clear`
pub fn fate_form(alloc: Global, tokens: &mut Reader<'_>) -> Result<Command, LineStop>
    ensures read { Takes fate_row result tokens.old tokens.new }
    ensures named { IfOk result NamesColumn }
{
    let from = site(tokens)?;
    let to = site(tokens)?;
    fates_behind(alloc, from, to, tokens)
}

const LINKS: [(&[u8], Link); 2] = [(b"up", Link::Up), (b"down", Link::Down)];

fn link(tokens: &mut Reader<'_>) -> Result<Link, BrokenRule>
    ensures { ReadsExactly (choice links) result tokens.old tokens.new }
{
    tokens.choice(&LINKS)
}

/// `link NAME NAME up|down`
pub fn link_form(tokens: &mut Reader<'_>) -> Result<Command, BrokenRule>
    ensures read { ReadsExactly link_row result tokens.old tokens.new }
    ensures named { IfOk result NamesColumn }
{
    let from = site(tokens)?;
    let to = site(tokens)?;
    let link = link(tokens)?;
    Ok(Command::Link { from, to, link })
}

/// `clock NAME WHOLE`
pub fn clock_form(tokens: &mut Reader<'_>) -> Result<Command, BrokenRule>
    ensures read { ReadsExactly clock_row result tokens.old tokens.new }
    ensures named { IfOk result NamesColumn }
{
    let site = site(tokens)?;
    let time = tokens.whole_number()?;
    Ok(Command::Clock { site, time })
}

/// `purge NAME`
pub fn purge_form(tokens: &mut Reader<'_>) -> Result<Command, BrokenRule>
    ensures read { ReadsExactly purge_row result tokens.old tokens.new }
    ensures named { IfOk result NamesColumn }
{
    let site = site(tokens)?;
    Ok(Command::Purge { site })
}

/// `execute NAME NAME WHOLE`
pub fn execute_form(tokens: &mut Reader<'_>) -> Result<Command, BrokenRule>
    ensures read { ReadsExactly execute_row result tokens.old tokens.new }
    ensures named { IfOk result NamesColumn }
{
    let here = site(tokens)?;
    let origin = site(tokens)?;
    let position = tokens.whole_number()?;
    Ok(Command::Execute {
        site: here,
        origin,
        position,
    })
}

/// `drop-error NAME NAME WHOLE`
pub fn drop_error_form(tokens: &mut Reader<'_>) -> Result<Command, BrokenRule>
    ensures read { ReadsExactly drop_error_row result tokens.old tokens.new }
    ensures named { IfOk result NamesColumn }
{
    let here = site(tokens)?;
    let origin = site(tokens)?;
    let position = tokens.whole_number()?;
    Ok(Command::DropError {
        site: here,
        origin,
        position,
    })
}

const REFRESHES: [(&[u8], Refresh); 3] = [
    (b"fast", Refresh::Fast),
    (b"complete", Refresh::Complete),
    (b"force", Refresh::Force),
];

fn refresh(tokens: &mut Reader<'_>) -> Result<Refresh, BrokenRule>
    ensures { ReadsExactly (choice refreshes) result tokens.old tokens.new }
{
    tokens.choice(&REFRESHES)
}

/// `refresh NAME fast|complete|force`
pub fn refresh_form(tokens: &mut Reader<'_>) -> Result<Command, BrokenRule>
    ensures read { ReadsExactly refresh_row result tokens.old tokens.new }
    ensures named { IfOk result NamesColumn }
{
    let site = site(tokens)?;
    let how = refresh(tokens)?;
    Ok(Command::Refresh { site, how })
}

/// `purge-log NAME NAME`
pub fn purge_log_form(tokens: &mut Reader<'_>) -> Result<Command, BrokenRule>
    ensures read { ReadsExactly purge_log_row result tokens.old tokens.new }
    ensures named { IfOk result NamesColumn }
{
    let master = site(tokens)?;
    let table = table(tokens)?;
    Ok(Command::PurgeLog { master, table })
}

/// `join NAME NAME`
pub fn join_form(tokens: &mut Reader<'_>) -> Result<Command, BrokenRule>
    ensures read { ReadsExactly join_row result tokens.old tokens.new }
    ensures named { IfOk result NamesColumn }
{
    let late = site(tokens)?;
    let source = site(tokens)?;
    Ok(Command::Join { site: late, source })
}

const SHOWN: [(&[u8], Shown); 7] = [
    (b"tables", Shown::Tables),
    (b"queue", Shown::Queue),
    (b"errors", Shown::Errors),
    (b"marks", Shown::Marks),
    (b"journal", Shown::Journal),
    (b"log", Shown::Log),
    (b"calls", Shown::Calls),
];

fn shown(tokens: &mut Reader<'_>) -> Result<Shown, BrokenRule>
    ensures { ReadsExactly (choice shown_words) result tokens.old tokens.new }
{
    tokens.choice(&SHOWN)
}

/// `show tables|queue|errors|marks|journal|log|calls NAME`
pub fn show_form(tokens: &mut Reader<'_>) -> Result<Command, BrokenRule>
    ensures read { ReadsExactly show_row result tokens.old tokens.new }
    ensures named { IfOk result NamesColumn }
{
    let what = shown(tokens)?;
    let site = site(tokens)?;
    Ok(Command::Show { what, site })
}
