//! How a storm ends.
ghost use Rattle.std.specs.Prelude.{◌≡◌, ◌++◌, map, IfOk, OnOk};
ghost use Rattle.storm_script.specs.Closing.{clear_line, push_line, closing};

use crate::ways::{Way, ways};
use rep_lists::NoMemory;
use script_parse::Command;
use std::alloc::Global;

// The fates of each direction are cleared.
fn add_clears(commands: &mut Vec<Command>, ways: &[Way]) -> Result<(), NoMemory>
    ensures { OnOk result (commands.new.items ≡ commands.old.items ++ map clear_line ways.now) }
{
    for way in ways {
        commands.push(Command::ClearFates {
            from: way.from,
            to: way.to,
        })?;
    }
    Ok(())
}

// There is a push in each direction.
fn add_pushes(commands: &mut Vec<Command>, ways: &[Way]) -> Result<(), NoMemory>
    ensures { OnOk result (commands.new.items ≡ commands.old.items ++ map push_line ways.now) }
{
    for way in ways {
        commands.push(Command::Push {
            from: way.from,
            to: way.to,
            count: None,
        })?;
    }
    Ok(())
}

/// The commands behind the rounds: no fates are left, and each site pushes to each other one.
pub fn closing(alloc: Global) -> Result<Vec<Command>, NoMemory>
    ensures { IfOk result (λ commands. commands.items ≡ closing) }
{
    let ways = ways();
    let mut commands = Vec::new(alloc);
    add_clears(&mut commands, &ways)?;
    add_pushes(&mut commands, &ways)?;
    Ok(commands)
}
