//! The world of a script, whose lines are run one by one.
ghost use Rattle.std.specs.Prelude.{◌≡◌, false, None, ⊤, IfOk};
ghost use Rattle.report_text.specs.Refusals.{is_memory, refused_text};
ghost use Rattle.world_state.specs.World.{first_world};
ghost use Rattle.world_run.specs.Scripts.{script_step};

use crate::built_world::World;
use rep_lists::NoMemory;
use rep_values::Refusal;
use report_text::{Lines, MOST_LINE, refused_line};
use script_drive::LineRunner;
use script_lex::LineStop;
use script_parse::parse_line;
use site_rounds::Passing;
use std::alloc::Global;
use std::marker::Model;
use world::WorldParts;
use world_state::Refused;

/// A world that runs each line, and what makes its passes.
#[derive(Drop)]
pub struct Runner<P: Passing> {
    world: World,
    passing: P,
}

impl<P: Passing> Model for Runner<P> {
    ghost use Rattle.std.specs.Prelude.{◌≡◌, None};
    ghost use Rattle.world_state.specs.World.{WorldState};

    ghost Value = { WorldState };

    ghost view = { λ r. r.world.world };

    ghost invariant = { λ r. P.able r.passing × (r.world.lent ≡ None) };
}

impl<P: Passing + Drop> Runner<P> {
    /// A runner of a world in which nothing is declared.
    pub fn make(alloc: Global, passing: P) -> Result<Runner<P>, NoMemory>
        requires { P.able passing }
        ensures { IfOk result (λ runner. runner ≡ first_world) }
    {
        let world = World::make(alloc)?;
        Ok(Runner { world, passing })
    }
}

/// Tells why a line was refused.
pub(crate) fn told(alloc: Global, refused: &Refused) -> Result<Lines, NoMemory>
    ensures { IfOk result (λ lines. (lines.bytes ≡ refused_text refused.now.line refused.now.refusal) × (is_memory refused.now.refusal ≡ false)) }
{
    if let Refusal::Memory = refused.refusal {
        return Err(NoMemory);
    }
    let mut lines = Lines::make(alloc);
    lines.reserve(MOST_LINE)?;
    refused_line(&mut lines, refused.line, &refused.refusal);
    Ok(lines)
}

impl<P: Passing + Drop> LineRunner for Runner<P> {
    type State = WorldParts;

    type Choices = ();

    ghost state = { λ r. r };

    ghost step = { λ _. script_step };

    ghost allowed = { λ _ _. ⊤ };

    ghost known = { λ _. ⊤ };

    fn run_line(&mut self, alloc: Global, number: u32, line: &[u8]) -> Result<Lines, LineStop> {
        let command = parse_line(alloc, line)?;
        match self.world.step_by(alloc, &self.passing, number, &command) {
            Ok(answer) => Ok(answer.lines),
            Err(refused) => {
                let lines = told(alloc, &refused)?;
                Ok(lines)
            }
        }
    }
}
