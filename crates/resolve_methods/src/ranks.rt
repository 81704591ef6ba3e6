//! What values are compared by: numbers, and levels of values and of sites.
ghost use Rattle.std.specs.Prelude.{◌≡◌, Some, option_copied, IfOk, IfErr, IfSome};
ghost use Rattle.std.specs.List.{find};
ghost use Rattle.rep_lists.specs.Rising.{IsRising, IsThere, IsGap};
ghost use Rattle.rep_values.specs.Equality.{value_eq};
ghost use Rattle.rep_values.specs.Name.{same_bytes};
ghost use Rattle.rep_schema.specs.Levels.{by_value, beside_value, level_found, level_among, level_of};
ghost use Rattle.rep_schema.specs.Shape.{HasLevelShape, HasShape};
ghost use Rattle.resolve_methods.specs.Ranks.{number_of, site_found, site_level_of};

use rep_schema::{PriorityGroup, PriorityLevel, Schema, SiteEntry};
use rep_values::{Text, Value, compare_values};
use std::cmp::Ordering;

/// The number that a value is.
pub(crate) fn number_of(value: Option<&Value>) -> Option<i64>
    ensures { result ≡ number_of (option_copied value.entry) }
{
    match value {
        Some(Value::Num(number)) => Some(*number),
        Some(Value::Words(_)) | None => None,
    }
}

/// The place of a value's level, or else the place where it would stand.
fn search(levels: &[PriorityLevel], value: &Value) -> Result<usize, usize>
    requires { IsRising by_value levels.now }
    ensures found { IfOk result (IsThere (beside_value value.now) levels.now) }
    ensures absent { IfErr result (IsGap (beside_value value.now) levels.now) }
{
    levels.binary_search_by(
        |level: &PriorityLevel| -> Ordering
            ensures { result ≡ beside_value value.entry.now level.now }
        { compare_values(&level.value, value) },
    )
}

fn level_for<'a>(levels: &'a [PriorityLevel], value: &Value) -> Option<&'a PriorityLevel>
    requires { IsRising by_value levels.now }
    ensures { option_copied result ≡ find (λ level. value_eq value.now level.value) levels.now }
{
    match search(levels, value) {
        Ok(place) => Some(&levels[place]),
        Err(_) => None,
    }
}

fn level_found(level: Option<&PriorityLevel>) -> Option<i64>
    ensures { result ≡ level_found (option_copied level.entry) }
{
    Some(level?.level)
}

fn level_among(group: Option<&PriorityGroup>, value: &Value) -> Option<i64>
    requires { IfSome (option_copied group) HasLevelShape }
    ensures { result ≡ level_among (option_copied group.entry) value.now }
{
    match group {
        Some(group) => level_found(level_for(group.levels.as_slice(), value)),
        None => None,
    }
}

/// The level of a value in a priority group, where it has one.
pub(crate) fn level_of(schema: &Schema, group: u32, value: Option<&Value>) -> Option<i64>
    requires { HasShape schema.now }
    ensures { result ≡ level_of schema.now group (option_copied value.entry) }
{
    match value {
        Some(value) => level_among(schema.priorities.as_slice().get(group as usize), value),
        None => None,
    }
}

fn site_named<'a>(sites: &'a [SiteEntry], text: &Text) -> Option<&'a SiteEntry>
    ensures { option_copied result ≡ find (λ site. same_bytes site.name.0 text.now) sites.now }
{
    sites
        .iter()
        .find(|site| site.name.0.bytes() == text.bytes())
}

fn site_found(site: Option<&SiteEntry>) -> Option<i64>
    ensures { result ≡ site_found (option_copied site.entry) }
{
    site?.level
}

fn level_of_named(schema: &Schema, name: &Value) -> Option<i64>
    ensures { result ≡ site_level_of schema.now (Some name.now) }
{
    match name {
        Value::Words(text) => site_found(site_named(schema.sites.as_slice(), text)),
        Value::Num(_) => None,
    }
}

/// The level of the site that a text names, where it has one.
pub(crate) fn site_level_of(schema: &Schema, value: Option<&Value>) -> Option<i64>
    ensures { result ≡ site_level_of schema.now (option_copied value.entry) }
{
    match value {
        Some(name) => level_of_named(schema, name),
        None => None,
    }
}
