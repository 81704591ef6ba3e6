//! What is told of a script's run: what it prints, and words about that.
ghost use Rattle.std.specs.Prelude.{◌≡◌, ◌++◌, [], OnOk};

use rep_lists::NoMemory;
use std::alloc::Global;
use std::fmt;
use std::marker::Model;

/// A piece of what is told.
#[derive(Drop)]
enum Piece {
    /// Bytes that a run prints, which are ASCII.
    Report(Vec<u8>),
    /// Lines of words about it, four spaces further in.
    Words(String),
}

/// What is told of a script's run, in its order. Contracts see what the run prints, without the words about it.
#[derive(Drop)]
pub struct Told {
    pieces: Vec<Piece>,
}

impl Model for Told {
    ghost use Rattle.std.specs.Prelude.{ℕ, List, flat_map};
    ghost use Rattle.run_words.specs.Telling.{report_in};

    ghost Value = { List ℕ };

    ghost view = { λ t. flat_map report_in t.pieces.items };
}

impl Told {
    /// Nothing is told.
    pub fn new(alloc: Global) -> Told
        ensures { result ≡ [] }
    {
        Told {
            pieces: Vec::new(alloc),
        }
    }

    /// Adds what a run prints.
    pub fn add_report(&mut self, alloc: Global, bytes: &[u8]) -> Result<(), NoMemory>
        ensures { OnOk result (self.new ≡ self.old ++ bytes.now) }
    {
        let bytes = Vec::from_slice(alloc, bytes)?;
        self.pieces.push(Piece::Report(bytes))?;
        Ok(())
    }

    /// Adds lines of words.
    pub fn add_words(&mut self, words: String) -> Result<(), NoMemory>
        ensures { OnOk result (self.new ≡ self.old) }
    {
        self.pieces.push(Piece::Words(words))?;
        Ok(())
    }
}

/// What the run prints, and the words in their places.
impl fmt::Display for Told {
    fn fmt<W: fmt::Write>(&self, f: &mut fmt::Formatter<W>) -> fmt::Result {
        for piece in self.pieces.as_slice() {
            match piece {
                Piece::Report(bytes) => {
                    for byte in bytes.as_slice() {
                        f.write_char(char::from(*byte))?;
                    }
                }
                Piece::Words(words) => f.write_str(words.as_str())?,
            }
        }
        Ok(())
    }
}
