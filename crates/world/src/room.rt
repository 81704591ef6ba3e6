//! Room for what a line prints.
ghost use Rattle.std.specs.Prelude.{◌≡◌, ◌≤◌, ◌-◌, [], take, length, IfOk};
ghost use Rattle.report_text.specs.Sheet.{most_line};

use rep_lists::{Items, NoMemory};
use report_text::{Lines, MOST_LINE};
use std::alloc::Global;
use std::mem;

/// No bytes, and room for one line.
pub fn room_for_line(alloc: Global) -> Result<Lines, NoMemory>
    ensures bytes { IfOk result (λ lines. lines.bytes ≡ []) }
    ensures room { IfOk result (λ lines. most_line ≤ lines.room) }
{
    let mut lines = Lines::make(alloc);
    lines.reserve(MOST_LINE)?;
    Ok(lines)
}

/// Lets go of the last line.
pub fn drop_last(lines: &mut Items<u32>, alloc: Global)
    ensures { lines.new ≡ take (length lines.old - 1) lines.old }
{
    let mut kept = mem::replace(lines, Items::new(alloc)).into_vec();
    let _ = kept.pop();
    *lines = Items::from_vec(kept);
}
