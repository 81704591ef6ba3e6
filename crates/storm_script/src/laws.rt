//! Laws of storms.
ghost use Rattle.storm_script.specs.Laws.{StormsAreLines, StormsReadAgain};

use script_parse::form_laws;

/// Each command of a storm is one that a line can give, and what it is written as is read as it.
pub fn storm_laws()
    ensures lines { StormsAreLines }
    ensures read { StormsReadAgain }
{
    form_laws();
}
