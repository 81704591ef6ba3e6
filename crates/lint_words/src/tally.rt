//! The errors of a script so far, by their lines and causes.

use rep_lists::NoMemory;
use script_flow::Cause;
use std::alloc::Global;
use std::fmt;

/// How many further lines are refused for the same cause as an error, and the last of them. Its `Display` goes on with the error's
/// sentence.
#[derive(Clone, Copy)]
pub struct Further {
    pub count: u32,
    pub last: u32,
}

impl Further {
    /// Several further lines.
    fn put_several<W: fmt::Write>(&self, f: &mut fmt::Formatter<W>) -> fmt::Result {
        write!(
            f,
            "; {} further lines, up to line {}, are refused for the same cause",
            self.count, self.last
        )
    }

    /// One further line.
    fn put_one<W: fmt::Write>(&self, f: &mut fmt::Formatter<W>) -> fmt::Result {
        write!(f, "; line {} is refused for the same cause", self.last)
    }
}

impl fmt::Display for Further {
    fn fmt<W: fmt::Write>(&self, f: &mut fmt::Formatter<W>) -> fmt::Result {
        if self.count == 0 {
            return Ok(());
        }
        if self.count == 1 {
            return self.put_one(f);
        }
        self.put_several(f)
    }
}

/// A cause that was told, and the place of its error.
#[derive(Clone, Copy)]
struct ToldCause {
    cause: Cause,
    place: usize,
}

/// The errors so far: the lines at which they were found, and of which other one each is a consequence.
#[derive(Drop)]
pub(crate) struct Tally {
    /// Rising.
    lines: Vec<u32>,
    /// Of each error the place of the first one of its cause, which is its own where it is no consequence.
    firsts: Vec<usize>,
    further: Vec<Further>,
    causes: Vec<ToldCause>,
}

impl Tally {
    /// No error.
    pub(crate) fn new(alloc: Global) -> Tally {
        Tally {
            lines: Vec::new(alloc),
            firsts: Vec::new(alloc),
            further: Vec::new(alloc),
            causes: Vec::new(alloc),
        }
    }

    /// The place of the first error of the cause of the one at a place.
    fn first_of(&self, place: usize) -> Option<usize> {
        self.firsts.get(place).copied()
    }

    /// Adds an error that was found at a line.
    fn add(&mut self, line: u32, first: usize) -> Result<(), NoMemory> {
        self.firsts.push(first)?;
        self.lines.push(line)?;
        self.further.push(Further { count: 0, last: 0 })?;
        Ok(())
    }

    /// Counts a further line that is refused for the same cause as the error at a place.
    fn add_further(&mut self, place: usize, line: u32) {
        if let Some(further) = self.further.get_mut(place) {
            further.count = further.count.saturating_add(1);
            further.last = line;
        }
    }

    /// Counts an error of its own that was found at a line.
    pub(crate) fn count_own(&mut self, line: u32) -> Result<(), NoMemory> {
        let first = self.lines.len();
        self.add(line, first)
    }

    /// Counts an error that was found at a line, a consequence of the one at a place, which may be a consequence too.
    pub(crate) fn count_further(&mut self, line: u32, cause: usize) -> Result<(), NoMemory> {
        let Some(first) = self.first_of(cause) else {
            return self.count_own(line);
        };
        self.add(line, first)?;
        self.add_further(first, line);
        Ok(())
    }

    /// How many further lines have the same cause as the error at a place.
    pub(crate) fn further(&self, place: usize) -> Further {
        match self.further.get(place) {
            Some(further) => *further,
            None => Further { count: 0, last: 0 },
        }
    }

    /// The place of the error that was found at a line.
    pub(crate) fn error_at(&self, line: u32) -> Option<usize> {
        match self.lines.binary_search(&line) {
            Ok(place) => Some(place),
            Err(_) => None,
        }
    }

    /// The place of the error that told of this cause.
    pub(crate) fn told_cause(&self, cause: &Cause) -> Option<usize> {
        for told in self.causes.as_slice() {
            if told.cause == *cause {
                return Some(told.place);
            }
        }
        None
    }

    /// Keeps that the next error tells of this cause.
    pub(crate) fn tell_cause(&mut self, cause: &Cause) -> Result<(), NoMemory> {
        self.causes.push(ToldCause {
            cause: *cause,
            place: self.lines.len(),
        })?;
        Ok(())
    }
}
