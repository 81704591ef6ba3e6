//! Printed bytes, with room for further ones.
ghost use Rattle.std.specs.Prelude.{◌≡◌, ◌≤◌, ◌+◌, ℕ, [], ◌∷◌, ◌++◌, length, decimal, map, OnOk, OnErr};
ghost use Rattle.std.specs.Fmt.{signed_decimal};
ghost use Rattle.report_text.specs.Sheet.{Appends, word_text, most_of, most_spaced, line, spaced};

use crate::Word;
use itoa::Buffer;
use rep_lists::NoMemory;
use std::alloc::Global;
use std::marker::Model;

/// The most bytes of a line without a row.
pub const MOST_LINE: u64 = 256;

/// The report bytes of one command. Room is taken first, so that a line can be put without want of memory.
#[derive(Drop)]
pub struct Lines {
    kept: Vec<u8>,
}

impl Model for Lines {
    ghost use Rattle.std.specs.Prelude.{◌-◌, vec_capacity, vec_len};
    ghost use Rattle.report_text.specs.Sheet.{Sheet};

    ghost Value = { Sheet };

    ghost view = { λ l. record { bytes = l.kept.items; room = vec_capacity l.kept - vec_len l.kept } };
}

impl Lines {
    /// No bytes. It takes no memory.
    pub fn make(alloc: Global) -> Lines
        ensures { result.bytes ≡ [] }
    {
        Lines {
            kept: Vec::new(alloc),
        }
    }

    /// The bytes so far.
    pub fn bytes(&self) -> &[u8]
        ensures { result.now ≡ self.now.bytes }
    {
        &self.kept
    }

    /// Makes room for so many further bytes, or finds no memory. Room that is there is kept.
    pub fn reserve(&mut self, bytes: u64) -> Result<(), NoMemory>
        ensures room { OnOk result (bytes ≤ self.new.room) }
        ensures bytes { self.new.bytes ≡ self.old.bytes }
        ensures kept { self.old.room ≤ self.new.room }
    {
        self.kept.reserve(bytes as usize)?;
        Ok(())
    }

    /// Appends a piece, or finds no memory and leaves the bytes as they were.
    pub fn add(&mut self, piece: &[u8]) -> Result<(), NoMemory>
        ensures ok { OnOk result (self.new.bytes ≡ self.old.bytes ++ piece.now) }
        ensures err { OnErr result (self.new.bytes ≡ self.old.bytes) }
    {
        self.kept.extend_from_slice(piece)?;
        Ok(())
    }

    /// Appends a piece for which there is room.
    pub fn put(&mut self, piece: &[u8])
        requires { length piece.now ≤ self.old.room }
        ensures { Appends self.old self.new piece.now }
    {
        let _ = self.kept.extend_from_slice(piece);
    }

    fn put_number(&mut self, number: u64)
        requires { 20 ≤ self.old.room }
        ensures text { Appends self.old self.new (decimal number) }
        ensures short { length (decimal number) ≤ 20 }
    {
        let mut buffer = Buffer::new();
        self.put(buffer.format(number).as_bytes());
    }

    fn put_signed(&mut self, number: i64)
        requires { 20 ≤ self.old.room }
        ensures text { Appends self.old self.new (signed_decimal number) }
        ensures short { length (signed_decimal number) ≤ 20 }
    {
        let mut buffer = Buffer::new();
        self.put(buffer.format(number).as_bytes());
    }

    fn put_word(&mut self, word: &Word<'_>)
        requires { most_of word.now ≤ self.old.room }
        ensures text { Appends self.old self.new (word_text word.now) }
        ensures short { length (word_text word.now) ≤ most_of word.now }
    {
        match word {
            Word::Plain(bytes) => self.put(bytes),
            Word::Name(name) => self.put(name.bytes()),
            Word::Number(number) => self.put_number(*number),
            Word::Signed(number) => self.put_signed(*number),
            Word::Quoted(text) => {
                self.put(b"'");
                self.put(text.bytes());
                self.put(b"'");
            }
        }
    }

    /// Puts words, each behind a space. A name takes room for 30 bytes, a number for 20 and a text for 66,
    /// however short it is.
    pub fn put_words(&mut self, words: &[Word<'_>])
        requires { most_spaced words.now ≤ self.old.room }
        ensures text { Appends self.old self.new (spaced (map word_text words.now)) }
        ensures room { self.old.room ≤ self.new.room + most_spaced words.now }
    {
        for word in words {
            self.put(b" ");
            self.put_word(word);
        }
    }

    /// Puts a line: its first word, further ones, and its end.
    pub fn put_line(&mut self, first: &[u8], words: &[Word<'_>])
        requires { length first.now + most_spaced words.now + 1 ≤ self.old.room }
        ensures { Appends self.old self.new (line first.now (map word_text words.now)) }
    {
        self.put(first);
        self.put_words(words);
        self.put(b"\n");
    }
}
