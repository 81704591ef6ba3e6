//! Texts of at most 64 bytes, kept in place.
ghost use Rattle.std.specs.Prelude.{◌≡◌, ℕ, ◌-◌, ◌≤◌, ◌++◌, length, replicate, nat_eq, true, Some, None, refl, if◌then◌else◌};
ghost use Rattle.std.specs.Ordering.{nat_cmp};
ghost use Rattle.std.specs.Cmp.{partial_equiv_from_equiv};
ghost use Rattle.std.specs.Cmp.Lexicographic.{pointwise, slice_cmp, nat_list_eq_equiv, nat_list_cmp_total, texts_po, texts_ties};
ghost use Rattle.std.specs.List.{list_all};
ghost use Rattle.rep_values.specs.Text.{is_text, is_text_byte};

use std::cmp::Ordering;
use std::marker::Model;

/// 0 to 64 bytes, each from 0x20 to 0x7E and not the quote 0x27. It is kept in place and takes no memory.
#[derive(Clone, Copy)]
pub struct Text {
    cells: [u8; 64],
    len: u8,
}

impl Model for Text {
    ghost use Rattle.std.specs.Prelude.{◌≡◌, ℕ, List, ◌++◌, ◌-◌, length, take, replicate, true};
    ghost use Rattle.rep_values.specs.Text.{is_text};
    ghost use Rattle.rep_values.specs.Padded.{IsPadded, cells-of_front, len-of_front};

    ghost Value = { List ℕ };

    ghost view = { λ t. take t.len t.cells };

    ghost invariant = { λ t. (is_text (take t.len t.cells) ≡ true) × IsPadded 64 0 t.len t.cells };

    ghost inverse = { λ bytes. record { cells = bytes ++ replicate (64 - length bytes) 0; len = length bytes } };

    ghost inverse_ok = { λ t h i. record {
      cells = cells-of_front 64 0 t.len t.cells h.1 i;
      len = len-of_front 64 0 t.len t.cells h.1 i;
    } };
}

fn is_text_byte(byte: u8) -> bool
    ensures { result ≡ is_text_byte byte }
{
    b' ' <= byte && byte <= b'~' && byte != b'\''
}

fn are_text_bytes(bytes: &[u8]) -> bool
    ensures { result ≡ list_all is_text_byte bytes.now }
{
    bytes.iter().all(|byte| is_text_byte(*byte))
}

/// The bytes, and zeros behind them.
fn padded(bytes: &[u8]) -> [u8; 64]
    requires { length bytes.now ≤ 64 }
    ensures { result ≡ bytes.now ++ replicate (64 - length bytes.now) 0 }
{
    let mut cells = [0; 64];
    cells[..bytes.len()].copy_from_slice(bytes);
    cells
}

impl Text {
    /// The text of these bytes; None exactly where they are more than 64 or one of them is no byte of a text.
    pub fn of(bytes: &[u8]) -> Option<Text>
        ensures { result ≡ (if is_text bytes.now then Some bytes.now else None) }
    {
        if bytes.len() > 64 {
            return None;
        }
        if !are_text_bytes(bytes) {
            return None;
        }
        Some(Text {
            cells: padded(bytes),
            len: bytes.len() as u8,
        })
    }

    /// The bytes of the text.
    pub fn bytes(&self) -> &[u8]
        ensures value { result.now ≡ self.now }
        ensures form { is_text self.now ≡ true }
    {
        &self.cells[..self.len as usize]
    }
}

impl PartialEq for Text {
    ghost eq = { pointwise nat_eq };

    ghost laws = { partial_equiv_from_equiv nat_list_eq_equiv };

    fn eq(&self, other: &Text) -> bool {
        self.bytes() == other.bytes()
    }
}

impl Eq for Text {
    ghost laws = { nat_list_eq_equiv };
}

impl PartialOrd for Text {
    ghost partial_cmp = { λ s t. Some (slice_cmp nat_cmp s t) };

    ghost laws = { texts_po };

    fn partial_cmp(&self, other: &Text) -> Option<Ordering> {
        Some(self.cmp(other))
    }
}

impl Ord for Text {
    ghost cmp = { slice_cmp nat_cmp };

    ghost total = { nat_list_cmp_total };

    ghost matches_partial_cmp = { λ s t. refl };

    ghost matches_eq = { texts_ties };

    fn cmp(&self, other: &Text) -> Ordering {
        self.bytes().cmp(other.bytes())
    }
}
