//! A whole script, run with words behind what it prints.
ghost use Rattle.std.specs.Prelude.{◌≡◌, ◌++◌, IfOk, OnOk};
ghost use Rattle.script_drive.specs.Told.{is_ended_early};
ghost use Rattle.script_drive.specs.LineBytes.{line_step};
ghost use Rattle.world_state.specs.World.{first_world};
ghost use Rattle.world_run.specs.Scripts.{script_step, script_report};
ghost use Rattle.run_words.specs.Telling.{is_end};

use crate::malformed::tell_too_many;
use crate::told::Told;
use crate::{Explainer, Next};
use rep_lists::NoMemory;
use script_steps::split_line;
use std::alloc::Global;

/// The greatest number of lines of a script.
const MOST_LINES: u32 = 200_000;

/// Runs the lines of a script, of which none was run yet, as `explain` does.
#[tactic(auto, using(crate::proofs::RunLemmas::run_facts))]
fn explain_lines(
    explainer: &mut Explainer,
    alloc: Global,
    script: &[u8],
    told: &mut Told,
) -> Result<Next, NoMemory>
    requires { explainer.old ≡ first_world }
    ensures told { OnOk result (told.new ≡ told.old ++ script_report script.now) }
    ensures next { IfOk result (λ next. is_end next ≡ is_ended_early (line_step script_step) first_world script.now) }
{
    let mut left = script;
    let mut number = 1u32;
    while !left.is_empty() {
        let (line, behind) = split_line(left);
        if number > MOST_LINES {
            tell_too_many(alloc, number, told)?;
            return Ok(Next::Ends);
        }
        if let Next::Ends = explainer.take_line(alloc, script, number, line, told)? {
            return Ok(Next::Ends);
        }
        number += 1;
        left = behind;
    }
    Ok(Next::GoesOn)
}

/// Runs a script, and tells what the run prints, with words behind what wants some; and answers whether a line ended the run.
pub fn explain(alloc: Global, script: &[u8], told: &mut Told) -> Result<Next, NoMemory>
    ensures told { OnOk result (told.new ≡ told.old ++ script_report script.now) }
    ensures next { IfOk result (λ next. is_end next ≡ is_ended_early (line_step script_step) first_world script.now) }
{
    let mut explainer = Explainer::make(alloc)?;
    explain_lines(&mut explainer, alloc, script, told)
}
