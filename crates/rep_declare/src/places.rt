//! The places of the columns and priority groups that declarations name.
ghost use Rattle.std.specs.Prelude.{◌≡◌, None, Some, ◌<◌, IfOk, OnErr};
ghost use Rattle.std.specs.List.{list_any, position};
ghost use Rattle.rep_values.specs.Name.{same_bytes};
ghost use Rattle.rep_schema.specs.Named.{is_priority, places_named};
ghost use Rattle.rep_declare.specs.Additions.{place_or_zero, column_number, priority_number, method_of, unique_method_of};

use crate::{MethodWords, UniqueWords};
use rep_lists::{Items, NoMemory};
use rep_schema::{Column, Method, PriorityGroup, UniqueMethod};
use rep_values::Name;
use schema_names::{column_place, priority_place};
use std::alloc::Global;

/// A place that was found, or 0. One that 32 bits can't name finds no memory: no schema has so many things.
fn place(found: Option<usize>) -> Result<u32, NoMemory>
    ensures ok { IfOk result (λ place. place ≡ place_or_zero found) }
    ensures err { OnErr result (4294967295 < place_or_zero found) }
{
    match found {
        None => Ok(0),
        Some(place) => {
            if place > u32::MAX as usize {
                return Err(NoMemory);
            }
            Ok(place as u32)
        }
    }
}

/// The place of the column of a name, or 0.
pub fn column_number(columns: &[Column], name: &Name) -> Result<u32, NoMemory>
    ensures ok { IfOk result (λ number. number ≡ column_number columns.now name.now) }
    ensures err { OnErr result (4294967295 < column_number columns.now name.now) }
{
    place(column_place(columns, name))
}

/// The place of the priority group of a name, or 0.
fn priority_number(groups: &[PriorityGroup], name: &Name) -> Result<u32, NoMemory>
    ensures ok { IfOk result (λ number. number ≡ priority_number groups.now name.now) }
    ensures err { OnErr result (4294967295 < priority_number groups.now name.now) }
{
    place(priority_place(groups, name))
}

/// Whether a name is one of these.
pub(crate) fn is_among(names: &[Name], name: &Name) -> bool
    ensures { result ≡ list_any (same_bytes name.now) names.now }
{
    names.iter().any(|other| name.is_same(other))
}

/// The places of the columns that these names name, in the table's order. It may want memory.
pub fn places_named(
    alloc: Global,
    columns: &[Column],
    names: &[Name],
) -> Result<Items<u32>, NoMemory>
    ensures { IfOk result (λ places. places ≡ places_named columns.now names.now) }
{
    let mut places = Items::with_capacity(alloc, names.len())?;
    for i in 0..columns.len() {
        if is_among(names, &columns[i].name) {
            places.push(place(Some(i))?)?;
        }
    }
    Ok(places)
}

/// The method that words mean in a table of these columns, among these priority groups.
pub fn method_of(
    groups: &[PriorityGroup],
    columns: &[Column],
    words: &MethodWords,
) -> Result<Method, NoMemory>
    ensures { IfOk result (λ method. method ≡ method_of groups.now columns.now words.now) }
{
    match *words {
        MethodWords::Latest(column) => Ok(Method::Latest(column_number(columns, &column)?)),
        MethodWords::Earliest(column) => Ok(Method::Earliest(column_number(columns, &column)?)),
        MethodWords::Overwrite => Ok(Method::Overwrite),
        MethodWords::Discard => Ok(Method::Discard),
        MethodWords::Additive => Ok(Method::Additive),
        MethodWords::Average => Ok(Method::Average),
        MethodWords::Maximum(column) => Ok(Method::Maximum(column_number(columns, &column)?)),
        MethodWords::Minimum(column) => Ok(Method::Minimum(column_number(columns, &column)?)),
        MethodWords::Priority { column, group } => Ok(Method::Priority {
            column: column_number(columns, &column)?,
            group: priority_number(groups, &group)?,
        }),
        MethodWords::SitePriority(column) => {
            Ok(Method::SitePriority(column_number(columns, &column)?))
        }
    }
}

/// The method of a constraint that words mean in a table of these columns.
pub fn unique_method_of(columns: &[Column], words: &UniqueWords) -> Result<UniqueMethod, NoMemory>
    ensures { IfOk result (λ method. method ≡ unique_method_of columns.now words.now) }
{
    match *words {
        UniqueWords::AppendSite(column) => {
            Ok(UniqueMethod::AppendSite(column_number(columns, &column)?))
        }
        UniqueWords::AppendSequence(column) => {
            Ok(UniqueMethod::AppendSequence(column_number(columns, &column)?))
        }
        UniqueWords::Discard => Ok(UniqueMethod::Discard),
    }
}
