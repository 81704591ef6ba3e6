//! The longest front of a line that passes a test.
ghost use Rattle.std.specs.Prelude.{◌≡◌, IfOk};
ghost use Rattle.line_advice.specs.Fronts.{is_read, has_at_most, IsLongest};

use rep_lists::NoMemory;
use script_lex::{LineStop, Span, spans};

/// Whether these bytes break no rule of tokens.
fn is_read(front: &[u8], found: &mut Vec<Span>) -> bool
    ensures { result ≡ is_read front.now }
{
    match spans(front, found) {
        Ok(()) | Err(LineStop::Memory) => true,
        Err(LineStop::Rule(_)) => false,
    }
}

/// Whether these bytes break no rule of tokens, and have so many tokens at most.
fn has_at_most(most: usize, front: &[u8], found: &mut Vec<Span>) -> Result<bool, NoMemory>
    ensures { IfOk result (λ has. has ≡ has_at_most most front.now) }
{
    match spans(front, found) {
        Ok(()) => Ok(found.len() <= most),
        Err(LineStop::Rule(_)) => Ok(false),
        Err(LineStop::Memory) => Err(NoMemory),
    }
}

/// How many bytes the longest front of the line has that breaks no rule of tokens.
#[tactic(auto, using(crate::proofs::Lines::empty_read))]
pub fn read_front(line: &[u8], found: &mut Vec<Span>) -> usize
    ensures { IsLongest is_read line.now result }
{
    let mut place = line.len();
    while place > 0 {
        if is_read(&line[..place], found) {
            return place;
        }
        place -= 1;
    }
    0
}

/// How many bytes the longest front of the line has that breaks no rule of tokens and has so many tokens at most.
#[tactic(auto, using(crate::proofs::Lines::empty_has))]
pub fn counted_front(line: &[u8], most: usize, found: &mut Vec<Span>) -> Result<usize, NoMemory>
    ensures { IfOk result (IsLongest (has_at_most most) line.now) }
{
    let mut place = line.len();
    while place > 0 {
        if has_at_most(most, &line[..place], found)? {
            return Ok(place);
        }
        place -= 1;
    }
    Ok(0)
}
