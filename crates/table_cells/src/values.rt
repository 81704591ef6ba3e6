//! Values as words.
ghost use Rattle.std.specs.Prelude.{◌≡◌, IfOk};
ghost use Rattle.table_cells.specs.Cells.{value_words};

use itoa::Buffer;
use page_text::words_of;
use rep_lists::{Items, NoMemory};
use rep_values::Value;
use std::alloc::Global;

/// A value as a cell shows it: a number in decimal, or a text as it is.
pub fn value_words(alloc: Global, value: &Value) -> Result<Items<u8>, NoMemory>
    ensures { IfOk result (λ words. words ≡ value_words value.now) }
{
    match value {
        Value::Num(number) => {
            let mut buffer = Buffer::new();
            words_of(alloc, buffer.format(*number).as_bytes())
        }
        Value::Words(text) => words_of(alloc, text.bytes()),
    }
}
