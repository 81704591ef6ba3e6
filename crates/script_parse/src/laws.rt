//! Laws of forms.
ghost use Rattle.script_parse.specs.Laws.{ReadsAgain};
ghost use Rattle.script_parse.specs.LiveLaws.{KeepsCommands, KeepsLines, LiveReadsAgain};

/// What a command is written as is read again as that command.
pub fn form_laws()
    ensures { ReadsAgain }
{}

/// `parse_live` reads each line as `parse_line` does, but for those with one of its own three words in front, which break rule 5
/// there (`lines`). So the lines that it reads as `Plain` are those that `parse_line` reads, as the same commands (`commands`).
/// What a command is written as is read again as that command (`again`).
pub fn live_line_laws()
    ensures lines { KeepsLines }
    ensures commands { KeepsCommands }
    ensures again { LiveReadsAgain }
{}
