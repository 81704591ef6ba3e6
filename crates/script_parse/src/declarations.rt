//! The forms of declarations.
ghost use Rattle.std.specs.Prelude.{IfOk};
ghost use Rattle.rep_declare.specs.Additions.{ColumnNamed};
ghost use Rattle.script_words.specs.Readers.{ReadsExactly, Takes};
ghost use Rattle.script_parse.specs.Declarations.{site_row, late_site_row, snapshot_site_row, table_row, group_row, method_row, priority_row, site_level_row, unique_row, unique_method_row, check_row, convergent_row, declaration_of};

use crate::column::ColumnPart;
use crate::heads::Declaring;
use crate::methods::{method, unique_method};
use crate::parts::{rel, site, table};
use rep_declare::Declare;
use script_lex::{BrokenRule, LineStop};
use script_words::{NamePart, Reader, one_or_more};
use std::alloc::Global;

fn site_form(tokens: &mut Reader<'_>) -> Result<Declare, BrokenRule>
    ensures read { ReadsExactly site_row result tokens.old tokens.new }
    ensures named { IfOk result ColumnNamed }
{
    let name = site(tokens)?;
    Ok(Declare::Site { name })
}

fn late_site_form(tokens: &mut Reader<'_>) -> Result<Declare, BrokenRule>
    ensures read { ReadsExactly late_site_row result tokens.old tokens.new }
    ensures named { IfOk result ColumnNamed }
{
    let name = site(tokens)?;
    Ok(Declare::LateSite { name })
}

fn snapshot_site_form(tokens: &mut Reader<'_>) -> Result<Declare, BrokenRule>
    ensures read { ReadsExactly snapshot_site_row result tokens.old tokens.new }
    ensures named { IfOk result ColumnNamed }
{
    let name = site(tokens)?;
    let master = site(tokens)?;
    Ok(Declare::SnapSite { name, master })
}

fn table_form(alloc: Global, tokens: &mut Reader<'_>) -> Result<Declare, LineStop>
    ensures read { Takes table_row result tokens.old tokens.new }
    ensures named { IfOk result ColumnNamed }
{
    let name = table(tokens)?;
    let columns = one_or_more::<ColumnPart>(alloc, tokens)?;
    Ok(Declare::Table { name, columns })
}

fn group_form(alloc: Global, tokens: &mut Reader<'_>) -> Result<Declare, LineStop>
    ensures read { Takes group_row result tokens.old tokens.new }
    ensures named { IfOk result ColumnNamed }
{
    let table = table(tokens)?;
    let group = tokens.name()?;
    let columns = one_or_more::<NamePart>(alloc, tokens)?;
    Ok(Declare::Group {
        table,
        group,
        columns,
    })
}

fn method_form(tokens: &mut Reader<'_>) -> Result<Declare, BrokenRule>
    ensures read { ReadsExactly method_row result tokens.old tokens.new }
    ensures named { IfOk result ColumnNamed }
{
    let table = table(tokens)?;
    let group = tokens.name()?;
    let method = method(tokens)?;
    Ok(Declare::Method {
        table,
        group,
        method,
    })
}

fn priority_form(tokens: &mut Reader<'_>) -> Result<Declare, BrokenRule>
    ensures read { ReadsExactly priority_row result tokens.old tokens.new }
    ensures named { IfOk result ColumnNamed }
{
    let group = tokens.name()?;
    let value = tokens.value()?;
    let level = tokens.number()?;
    Ok(Declare::Priority {
        group,
        value,
        level,
    })
}

fn site_level_form(tokens: &mut Reader<'_>) -> Result<Declare, BrokenRule>
    ensures read { ReadsExactly site_level_row result tokens.old tokens.new }
    ensures named { IfOk result ColumnNamed }
{
    let site = site(tokens)?;
    let level = tokens.number()?;
    Ok(Declare::SiteLevel { site, level })
}

fn unique_form(alloc: Global, tokens: &mut Reader<'_>) -> Result<Declare, LineStop>
    ensures read { Takes unique_row result tokens.old tokens.new }
    ensures named { IfOk result ColumnNamed }
{
    let table = table(tokens)?;
    let constraint = tokens.name()?;
    let columns = one_or_more::<NamePart>(alloc, tokens)?;
    Ok(Declare::Unique {
        table,
        constraint,
        columns,
    })
}

fn unique_method_form(tokens: &mut Reader<'_>) -> Result<Declare, BrokenRule>
    ensures read { ReadsExactly unique_method_row result tokens.old tokens.new }
    ensures named { IfOk result ColumnNamed }
{
    let table = table(tokens)?;
    let constraint = tokens.name()?;
    let method = unique_method(tokens)?;
    Ok(Declare::UniqueMethod {
        table,
        constraint,
        method,
    })
}

fn check_form(tokens: &mut Reader<'_>) -> Result<Declare, BrokenRule>
    ensures read { ReadsExactly check_row result tokens.old tokens.new }
    ensures named { IfOk result ColumnNamed }
{
    let table = table(tokens)?;
    let check = tokens.name()?;
    let column = tokens.name()?;
    let rel = rel(tokens)?;
    let value = tokens.value()?;
    Ok(Declare::Check {
        table,
        check,
        column,
        rel,
        value,
    })
}

fn convergent_form(tokens: &mut Reader<'_>) -> Result<Declare, BrokenRule>
    ensures read { ReadsExactly convergent_row result tokens.old tokens.new }
    ensures named { IfOk result ColumnNamed }
{
    let table = table(tokens)?;
    Ok(Declare::Convergent { table })
}

/// The declaration behind its first word.
pub fn declaration(
    alloc: Global,
    declaring: Declaring,
    tokens: &mut Reader<'_>,
) -> Result<Declare, LineStop>
    ensures read { Takes (declaration_of declaring) result tokens.old tokens.new }
    ensures named { IfOk result ColumnNamed }
{
    match declaring {
        Declaring::Site => Ok(site_form(tokens)?),
        Declaring::LateSite => Ok(late_site_form(tokens)?),
        Declaring::SnapSite => Ok(snapshot_site_form(tokens)?),
        Declaring::Table => table_form(alloc, tokens),
        Declaring::Group => group_form(alloc, tokens),
        Declaring::Method => Ok(method_form(tokens)?),
        Declaring::Priority => Ok(priority_form(tokens)?),
        Declaring::SiteLevel => Ok(site_level_form(tokens)?),
        Declaring::Unique => unique_form(alloc, tokens),
        Declaring::UniqueMethod => Ok(unique_method_form(tokens)?),
        Declaring::Check => Ok(check_form(tokens)?),
        Declaring::Convergent => Ok(convergent_form(tokens)?),
    }
}
