//! What comes into a priority group of a schema.
ghost use Rattle.std.specs.Prelude.{◌≡◌, OnOk, OnErr};
ghost use Rattle.std.specs.List.{position};
ghost use Rattle.std.specs.Ordering.{is_ge};
ghost use Rattle.rep_lists.specs.Rising.{put_at};
ghost use Rattle.rep_values.specs.Literal.{value_of_literal};
ghost use Rattle.rep_schema.specs.Levels.{beside_value};
ghost use Rattle.rep_declare.specs.Additions.{with_level};

use rep_lists::{Items, NoMemory};
use rep_schema::{PriorityGroup, PriorityLevel};
use rep_values::{Literal, Value, compare_values, same_value};
use std::alloc::Global;
use std::mem;

/// The place of the first level that isn't of a lower value.
fn first_not_below(levels: &[PriorityLevel], value: &Value) -> Option<usize>
    ensures { result ≡ position (λ level. is_ge (beside_value value.now level)) levels.now }
{
    levels
        .iter()
        .position(|level| compare_values(&level.value, value).is_ge())
}

/// Puts a level at its place in rising order of value.
fn put_level(levels: &mut Vec<PriorityLevel>, level: PriorityLevel) -> Result<(), NoMemory>
    ensures ok { OnOk result (levels.new.items ≡ put_at (beside_value level.value) level levels.old.items) }
    ensures err { OnErr result (levels.new.items ≡ levels.old.items) }
{
    match first_not_below(levels.as_slice(), &level.value) {
        Some(place) => {
            if same_value(&levels[place].value, &level.value) {
                levels[place] = level;
            } else {
                levels.insert(place, level)?;
            }
            Ok(())
        }
        None => {
            levels.push(level)?;
            Ok(())
        }
    }
}

/// A level comes into a priority group, at its place in rising order of value.
pub(crate) fn put_level_in(
    alloc: Global,
    group: &mut PriorityGroup,
    value: &Literal,
    level: i64,
) -> Result<(), NoMemory>
    ensures ok { OnOk result (group.new ≡ with_level (value_of_literal value.now) level group.old) }
    ensures err { OnErr result (group.new ≡ group.old) }
{
    let level = PriorityLevel {
        value: value.value(),
        level,
    };
    let mut levels = mem::replace(&mut group.levels, Items::new(alloc)).into_vec();
    let result = put_level(&mut levels, level);
    group.levels = Items::from_vec(levels);
    result
}
