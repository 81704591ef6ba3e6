//! Declarations as lines, in the form that scripts have.
ghost use Rattle.std.specs.Prelude.{◌≤◌, length, IfOk};
ghost use Rattle.rep_schema.specs.Shape.{HasShape};
ghost use Rattle.rep_declare.specs.Additions.{ColumnNamed};

use crate::{CaseStop, Words};
use rep_declare::{Declare, MethodWords, UniqueWords, add_declaration};
use rep_lists::Items;
use rep_schema::{Column, Kind, Rel, Schema};
use rep_values::{Literal, Name, Refusal};
use script_lex::{Symbol, Token};
use std::alloc::Global;

fn read_kind(words: &mut Words) -> Result<Kind, CaseStop> {
    match words.word()? {
        b"NUMBER" => Ok(Kind::Number),
        b"TEXT" => Ok(Kind::Words),
        b"DATE" => Ok(Kind::Date),
        b"STAMP" => Ok(Kind::Stamp),
        b"SITE" => Ok(Kind::Site),
        _ => Err(CaseStop::NoCase),
    }
}

/// `NAME : TYPE`, and `: key` for a key column.
fn read_column(words: &mut Words) -> Result<Column, CaseStop> {
    let name = words.name()?;
    words.symbol(Symbol::Colon)?;
    let kind = read_kind(words)?;
    let key = words.passes(Symbol::Colon);
    if key && words.word()? != b"key".as_slice() {
        return Err(CaseStop::NoCase);
    }
    Ok(Column { name, kind, key })
}

fn read_columns(alloc: Global, words: &mut Words) -> Result<Items<Column>, CaseStop> {
    let mut columns = Vec::new(alloc);
    for _ in 0..u64::MAX {
        if words.is_done() {
            break;
        }
        columns.push(read_column(words)?)?;
    }
    Ok(Items::from_vec(columns))
}

/// One name at least.
fn read_names(alloc: Global, words: &mut Words) -> Result<Items<Name>, CaseStop>
    ensures { IfOk result (λ names. 1 ≤ length names) }
{
    let names = words.names(alloc)?;
    if names.is_empty() {
        return Err(CaseStop::NoCase);
    }
    Ok(names)
}

/// A method that a column tells.
fn method_by(kind: &[u8], column: Name) -> Result<MethodWords, CaseStop> {
    match kind {
        b"latest" => Ok(MethodWords::Latest(column)),
        b"earliest" => Ok(MethodWords::Earliest(column)),
        b"maximum" => Ok(MethodWords::Maximum(column)),
        b"minimum" => Ok(MethodWords::Minimum(column)),
        b"site-priority" => Ok(MethodWords::SitePriority(column)),
        _ => Err(CaseStop::NoCase),
    }
}

fn read_priority(words: &mut Words) -> Result<MethodWords, CaseStop> {
    Ok(MethodWords::Priority {
        column: words.name()?,
        group: words.name()?,
    })
}

fn read_method(words: &mut Words) -> Result<MethodWords, CaseStop> {
    match words.word()? {
        b"overwrite" => Ok(MethodWords::Overwrite),
        b"discard" => Ok(MethodWords::Discard),
        b"additive" => Ok(MethodWords::Additive),
        b"average" => Ok(MethodWords::Average),
        b"priority" => read_priority(words),
        kind => method_by(kind, words.name()?),
    }
}

fn read_unique_method(words: &mut Words) -> Result<UniqueWords, CaseStop> {
    match words.word()? {
        b"append-site" => Ok(UniqueWords::AppendSite(words.name()?)),
        b"append-sequence" => Ok(UniqueWords::AppendSequence(words.name()?)),
        b"discard" => Ok(UniqueWords::Discard),
        _ => Err(CaseStop::NoCase),
    }
}

fn rel_of(symbol: Symbol) -> Option<Rel> {
    match symbol {
        Symbol::Eq => Some(Rel::Eq),
        Symbol::Ne => Some(Rel::Ne),
        Symbol::Lt => Some(Rel::Lt),
        Symbol::Le => Some(Rel::Le),
        Symbol::Gt => Some(Rel::Gt),
        Symbol::Ge => Some(Rel::Ge),
        Symbol::Colon | Symbol::Comma | Symbol::Plus => None,
    }
}

/// `=`, `!=`, `<`, `<=`, `>` or `>=`.
fn read_rel(words: &mut Words) -> Result<Rel, CaseStop> {
    match words.token()? {
        Token::Symbol(symbol) => rel_of(*symbol).ok_or(CaseStop::NoCase),
        Token::Word(_) | Token::Number { .. } | Token::Words(_) => Err(CaseStop::NoCase),
    }
}

fn read_group(alloc: Global, words: &mut Words) -> Result<Declare, CaseStop>
    ensures { IfOk result ColumnNamed }
{
    Ok(Declare::Group {
        table: words.table()?,
        group: words.name()?,
        columns: read_names(alloc, words)?,
    })
}

fn read_unique(alloc: Global, words: &mut Words) -> Result<Declare, CaseStop>
    ensures { IfOk result ColumnNamed }
{
    Ok(Declare::Unique {
        table: words.table()?,
        constraint: words.name()?,
        columns: read_names(alloc, words)?,
    })
}

fn read_site(words: &mut Words) -> Result<Declare, CaseStop>
    ensures { IfOk result ColumnNamed }
{
    Ok(Declare::Site {
        name: words.site()?,
    })
}

fn read_late_site(words: &mut Words) -> Result<Declare, CaseStop>
    ensures { IfOk result ColumnNamed }
{
    Ok(Declare::LateSite {
        name: words.site()?,
    })
}

fn read_snapshot_site(words: &mut Words) -> Result<Declare, CaseStop>
    ensures { IfOk result ColumnNamed }
{
    Ok(Declare::SnapSite {
        name: words.site()?,
        master: words.site()?,
    })
}

fn read_table(alloc: Global, words: &mut Words) -> Result<Declare, CaseStop>
    ensures { IfOk result ColumnNamed }
{
    Ok(Declare::Table {
        name: words.table()?,
        columns: read_columns(alloc, words)?,
    })
}

fn read_group_method(words: &mut Words) -> Result<Declare, CaseStop>
    ensures { IfOk result ColumnNamed }
{
    Ok(Declare::Method {
        table: words.table()?,
        group: words.name()?,
        method: read_method(words)?,
    })
}

fn read_level(words: &mut Words) -> Result<Declare, CaseStop>
    ensures { IfOk result ColumnNamed }
{
    Ok(Declare::Priority {
        group: words.name()?,
        value: words.literal()?,
        level: words.number()?,
    })
}

fn read_site_level(words: &mut Words) -> Result<Declare, CaseStop>
    ensures { IfOk result ColumnNamed }
{
    Ok(Declare::SiteLevel {
        site: words.site()?,
        level: words.number()?,
    })
}

fn read_constraint_method(words: &mut Words) -> Result<Declare, CaseStop>
    ensures { IfOk result ColumnNamed }
{
    Ok(Declare::UniqueMethod {
        table: words.table()?,
        constraint: words.name()?,
        method: read_unique_method(words)?,
    })
}

/// `COLUMN REL VALUE`
fn read_test(words: &mut Words) -> Result<(Name, Rel, Literal), CaseStop> {
    Ok((words.name()?, read_rel(words)?, words.literal()?))
}

fn read_check(words: &mut Words) -> Result<Declare, CaseStop>
    ensures { IfOk result ColumnNamed }
{
    let table = words.table()?;
    let check = words.name()?;
    let (column, rel, value) = read_test(words)?;
    Ok(Declare::Check {
        table,
        check,
        column,
        rel,
        value,
    })
}

fn read_convergent(words: &mut Words) -> Result<Declare, CaseStop>
    ensures { IfOk result ColumnNamed }
{
    Ok(Declare::Convergent {
        table: words.table()?,
    })
}

fn read_of_kind(alloc: Global, kind: &[u8], words: &mut Words) -> Result<Declare, CaseStop>
    ensures { IfOk result ColumnNamed }
{
    match kind {
        b"site" => read_site(words),
        b"latesite" => read_late_site(words),
        b"snapsite" => read_snapshot_site(words),
        b"table" => read_table(alloc, words),
        b"group" => read_group(alloc, words),
        b"method" => read_group_method(words),
        b"priority" => read_level(words),
        b"site-level" => read_site_level(words),
        b"unique" => read_unique(alloc, words),
        b"unique-method" => read_constraint_method(words),
        b"check" => read_check(words),
        b"convergent" => read_convergent(words),
        _ => Err(CaseStop::NoCase),
    }
}

/// A declaration by its first word, up to the end of the line.
pub fn read_declaration(alloc: Global, words: &mut Words) -> Result<Declare, CaseStop>
    ensures { IfOk result ColumnNamed }
{
    let kind = words.word()?;
    let declaration = read_of_kind(alloc, kind, words)?;
    words.end()?;
    Ok(declaration)
}

/// Adds the declaration that a line is, or says why it is refused.
pub fn declare(
    alloc: Global,
    schema: &mut Schema,
    words: &mut Words,
) -> Result<Option<Refusal>, CaseStop>
    requires { HasShape schema.old }
    ensures { HasShape schema.new }
{
    let declaration = read_declaration(alloc, words)?;
    match add_declaration(schema, alloc, &declaration) {
        Ok(()) => Ok(None),
        Err(why) => Ok(Some(why)),
    }
}
