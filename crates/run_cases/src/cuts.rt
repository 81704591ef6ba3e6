//! Scripts that are cut behind each of their bytes.

use crate::runs::{Ended, run};
use std::alloc::{AllocError, Global};

/// What a cut prints.
#[derive(Clone, Copy)]
enum Printed {
    /// A front of the whole report.
    Front,
    /// What its whole lines print, and that its last line is malformed.
    Malformed,
    /// What its whole lines print, and what its last line prints as it is cut.
    Other,
    /// Something else, or its whole lines alone print what is no front of the whole report.
    Wrong,
}

/// How many cuts print what, and the first that is wrong, if there is one.
#[derive(Clone, Copy)]
struct Tally {
    fronts: u64,
    malformed: u64,
    others: u64,
    wrong: Option<usize>,
}

impl Tally {
    fn new() -> Tally {
        Tally {
            fronts: 0,
            malformed: 0,
            others: 0,
            wrong: None,
        }
    }

    /// Takes in what the cut behind so many bytes prints.
    fn take_in(&mut self, printed: Printed, count: usize) {
        match printed {
            Printed::Front => self.fronts = self.fronts.saturating_add(1),
            Printed::Malformed => self.malformed = self.malformed.saturating_add(1),
            Printed::Other => self.others = self.others.saturating_add(1),
            Printed::Wrong => self.wrong = self.wrong.or(Some(count)),
        }
    }
}

/// Whether the bytes are one line, which tells that a line is malformed.
fn is_malformed_line(bytes: &[u8]) -> bool {
    match bytes.split_last() {
        Some((end, line)) => {
            *end == b'\n' && line.starts_with(b"malformed ") && !line.contains(&b'\n')
        }
        None => false,
    }
}

/// What a cut prints, by whether its last line has its end, what the lines before that line print, and the whole report.
fn classify(ended: &Ended, ends_line: bool, front: &[u8], whole: &[u8]) -> Printed {
    let is_front = whole.starts_with(&ended.report);
    if ends_line && !is_front {
        return Printed::Wrong;
    }
    let Some(rest) = ended.report.strip_prefix(front) else {
        return Printed::Wrong;
    };
    match ended.status {
        0 if is_front => Printed::Front,
        0 => Printed::Other,
        1 if is_malformed_line(rest) => Printed::Malformed,
        _ => Printed::Wrong,
    }
}

fn count_cuts(alloc: Global, script: &[u8], whole: &[u8]) -> Result<Tally, AllocError> {
    let mut tally = Tally::new();
    let mut front = Vec::new(alloc);
    for place in 0..script.len() {
        let count = place + 1;
        let (cut, _) = script.split_at(count);
        let ends_line = cut.last() == Some(&b'\n');
        let ended = run(alloc, cut)?;
        tally.take_in(classify(&ended, ends_line, &front, whole), count);
        if ends_line && ended.status == 0 {
            front = ended.report;
        }
    }
    Ok(tally)
}

/// Tells how many cuts there are and how many print what, or the first that prints what it can't.
pub fn cut_line(alloc: Global, script: &[u8], whole: &[u8]) -> Result<String, AllocError> {
    let cuts = script.len();
    let tally = count_cuts(alloc, script, whole)?;
    let (fronts, malformed, others) = (tally.fronts, tally.malformed, tally.others);
    match tally.wrong {
        None => {
            format!(in alloc;
                "{cuts} cuts: {fronts} fronts, {malformed} malformed, {others} others"
            )
        }
        Some(count) => format!(in alloc; "{cuts} cuts: the one behind byte {count} is wrong"),
    }
}
