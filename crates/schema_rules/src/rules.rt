//! The rules of a schema, which are tested when its declarations end.
ghost use Rattle.std.specs.Prelude.{◌≡◌, Some, None, IfErr, OnOk, not};
ghost use Rattle.std.specs.List.{list_any, list_all, position};
ghost use Rattle.rep_schema.specs.Shape.{is_early_master};
ghost use Rattle.schema_rules.specs.Rules.{rules_of, broken_rule};

use crate::check_rules::{each_is_unchecked, each_tests_plain_column};
use crate::constraint_rules::{each_has_plain_columns, have_good_appends};
use crate::convergent_rules::{
    each_has_forms, each_has_groups_alone, each_is_keyed_by_site, has_levels,
};
use crate::key_rules::{are_well_keyed, each_off_the_key};
use crate::method_rules::{
    each_adds_one_number, each_compares_amounts, each_compares_sites, each_compares_times,
    each_names_own_columns, each_ranks_plain_values,
};
use rep_schema::{Schema, SiteEntry};

fn has_some_master(sites: &[SiteEntry]) -> bool
    ensures { result ≡ list_any is_early_master sites.now }
{
    sites.iter().any(|site| site.is_early_master())
}

/// Whether each rule holds, in the order of their numbers.
fn rules_of(schema: &Schema) -> [bool; 17]
    ensures { result ≡ rules_of schema.now }
{
    [
        has_some_master(schema.sites.as_slice()),
        are_well_keyed(schema.tables.as_slice()),
        each_off_the_key(schema),
        each_names_own_columns(schema),
        each_adds_one_number(schema),
        each_compares_times(schema),
        each_compares_amounts(schema),
        each_ranks_plain_values(schema),
        each_compares_sites(schema),
        each_has_plain_columns(schema),
        have_good_appends(schema.tables.as_slice()),
        each_is_keyed_by_site(schema),
        each_has_groups_alone(schema),
        each_has_forms(schema),
        has_levels(schema),
        each_tests_plain_column(schema),
        each_is_unchecked(schema),
    ]
}

fn first_broken(rules: &[bool]) -> Option<usize>
    ensures { result ≡ position not rules.now }
{
    rules.iter().position(|holds| !*holds)
}

/// The number of the lowest rule that is broken, if one is. It takes no memory.
///
///  1. There is a master that is there from the start.
///  2. Every table has a key column, and no key column is a STAMP.
///  3. No column of a named group is a key column.
///  4. The column named by a group's method is in the group.
///  5. A group with additive or average has exactly one column, of type NUMBER.
///  6. The column of latest and earliest is a DATE or a STAMP.
///  7. The column of maximum and minimum is a NUMBER or a DATE.
///  8. The column of priority is a NUMBER, TEXT or DATE, and the priority group has a level.
///  9. The column of site-priority is a SITE.
/// 10. The columns of a secondary constraint are no key columns and are NUMBER, TEXT or DATE.
/// 11. An append method stands on a secondary constraint and names a TEXT column of it.
/// 12. The first key column of a convergent table is a SITE.
/// 13. A convergent table has no secondary constraint, no shadow column and no method of its key.
/// 14. Every group of a convergent table has these columns and these methods: one NUMBER column, additive; one NUMBER
///     column, its maximum or its minimum, then discard; or a STAMP and a SITE column, with any others, latest of the
///     one, then site-priority of the other.
/// 15. Where there is a convergent table, every site has a level, and all levels differ.
/// 16. The column of a check is a NUMBER, TEXT or DATE.
/// 17. A convergent table has no check.
#[tactic(auto, unfolding(crate::specs::Rules::broken_rule))]
pub fn check(schema: &Schema) -> Result<(), u8>
    ensures sound { OnOk result (broken_rule schema.now ≡ None) }
    ensures broken { IfErr result (λ rule. broken_rule schema.now ≡ Some rule) }
{
    match first_broken(&rules_of(schema)) {
        None => Ok(()),
        Some(place) => Err(place as u8 + 1),
    }
}
