//! A runner of lines whose report is the script.
ghost use Rattle.std.specs.Prelude.{⊤};
ghost use Rattle.script_drive.specs.Told.{Tells};
ghost use Rattle.script_drive.specs.LineBytes.{line_step};
ghost use Rattle.script_drive.specs.Outcome.{Told};
ghost use Rattle.script_drive.specs.Prompt.{ReadsPromptly};
ghost use Rattle.drive_cases.specs.Repeats.{repeat_step};

use rep_io::Sink;
use report_text::Lines;
use script_drive::{AtEnd, LineRunner, Reader, Status, drive};
use script_lex::LineStop;
use std::alloc::Global;

/// Prints each line as it stands. One that begins with the mark breaks rule 4.
#[derive(Drop)]
pub struct Repeat {
    pub mark: u8,
}

impl LineRunner for Repeat {
    type State = u8;

    type Choices = ();

    ghost state = { λ r. r.mark };

    ghost step = { λ _ mark number line. repeat_step mark number line };

    ghost allowed = { λ _ _. ⊤ };

    ghost known = { λ _. ⊤ };

    fn run_line(&mut self, alloc: Global, _number: u32, line: &[u8]) -> Result<Lines, LineStop> {
        if line.starts_with(&[self.mark]) {
            return Err(LineStop::Rule(4));
        }
        let mut lines = Lines::make(alloc);
        lines.add(line)?;
        lines.add(b"\n")?;
        Ok(lines)
    }
}

/// Runs a script whose lines are printed as they stand, through any reader, whatever becomes of the run at its end.
pub fn repeat_through<S, K: Sink, R: Reader<S, K>>(
    alloc: Global,
    mark: u8,
    at_end: AtEnd,
    reader: &mut R,
    source: &mut S,
    sink: &mut K,
) -> Status
    ensures told { Tells (Told (line_step repeat_step) mark result) (R.left source.old) (R.left source.new) (K.taken sink.old) (K.taken sink.new) }
    ensures prompt { ReadsPromptly (line_step repeat_step) mark result (R.reads reader.old) (R.reads reader.new) (R.left source.old) (K.taken sink.old) }
{
    drive(alloc, Repeat { mark }, at_end, reader, source, sink)
}
