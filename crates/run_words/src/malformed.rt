//! Lines at which a run ends, with what was expected.
ghost use Rattle.std.specs.Prelude.{◌≡◌, ◌++◌, IfOk, OnOk};
ghost use Rattle.report_text.specs.Texts.{malformed_text};

use crate::told::Told;
use line_advice::Mistake;
use rep_lists::NoMemory;
use report_text::{Lines, MOST_LINE, malformed_line};
use site_words::{add_marked, add_note};
use std::alloc::{AllocError, Global};

/// The rule that a script has 200,000 lines at most.
const LINES_RULE: u8 = 2;

/// The line of a malformed line.
fn malformed_lines(alloc: Global, number: u32, rule: u8) -> Result<Lines, NoMemory>
    ensures { IfOk result (λ lines. lines.bytes ≡ malformed_text number rule) }
{
    let mut lines = Lines::make(alloc);
    lines.reserve(MOST_LINE)?;
    malformed_line(&mut lines, number, rule);
    Ok(lines)
}

/// Tells the line of a malformed line.
fn tell_rule(alloc: Global, number: u32, rule: u8, told: &mut Told) -> Result<(), NoMemory>
    ensures { OnOk result (told.new ≡ told.old ++ malformed_text number rule) }
{
    let lines = malformed_lines(alloc, number, rule)?;
    told.add_report(alloc, lines.bytes())
}

/// Appends a malformed line, and what was expected.
fn add_mistake(text: &mut String, line: &[u8], mistake: &Mistake) -> Result<(), AllocError> {
    add_marked(text, line, mistake.column)?;
    add_note(text, mistake)?;
    add_note(text, &"the run ends here")
}

/// The words of a malformed line.
fn mistake_words(alloc: Global, line: &[u8], mistake: &Mistake) -> Result<String, NoMemory> {
    let mut text = String::new(alloc);
    add_mistake(&mut text, line, mistake)?;
    Ok(text)
}

/// Tells of a malformed line, with what was expected.
pub fn tell_malformed(
    alloc: Global,
    number: u32,
    line: &[u8],
    mistake: &Mistake,
    told: &mut Told,
) -> Result<(), NoMemory>
    ensures { OnOk result (told.new ≡ told.old ++ malformed_text number mistake.now.rule) }
{
    tell_rule(alloc, number, mistake.rule, told)?;
    let words = mistake_words(alloc, line, mistake)?;
    told.add_words(words)
}

/// The words of a line that is one too many.
fn limit_words(alloc: Global) -> Result<String, NoMemory> {
    let mut text = String::new(alloc);
    add_note(
        &mut text,
        &"a script has 200000 lines at most: the run ends here",
    )?;
    Ok(text)
}

/// Tells that a line is one too many.
pub fn tell_too_many(alloc: Global, number: u32, told: &mut Told) -> Result<(), NoMemory>
    ensures { OnOk result (told.new ≡ told.old ++ malformed_text number 2) }
{
    tell_rule(alloc, number, LINES_RULE, told)?;
    let words = limit_words(alloc)?;
    told.add_words(words)
}
