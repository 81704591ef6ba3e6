//! What came of the commands of a storm, counted.
ghost use Rattle.std.specs.Prelude.{◌≡◌, []};
ghost use Rattle.replication_cli.specs.Tallies.{tally_of, with_refusal, with_outcome, HasRoom, NumbersFit};

use world::Outcome;

/// How many commits with calls there were, refused commands, and pushes; and how many errors the pushes counted.
#[derive(Clone, Copy, Debug, PartialEq, Eq)]
pub struct Tally {
    pub commits: u64,
    pub refused: u64,
    pub pushes: u64,
    pub errors: u128,
}

impl Tally {
    /// Nothing was run.
    pub fn none() -> Tally
        ensures { result ≡ tally_of [] }
    {
        Tally {
            commits: 0,
            refused: 0,
            pushes: 0,
            errors: 0,
        }
    }

    /// Counts what came of one command more.
    pub fn add(&mut self, outcome: Outcome)
        requires { HasRoom self.old }
        ensures counted { self.new ≡ with_outcome self.old outcome }
        ensures fits { NumbersFit outcome }
    {
        match outcome {
            Outcome::Committed { .. } => self.commits += 1,
            Outcome::Pushed { count } => {
                self.pushes += 1;
                self.errors += u128::from(count.errors);
            }
            Outcome::NothingCommitted | Outcome::Done => {}
        }
    }

    /// Counts one refused command more.
    pub fn refuse(&mut self)
        requires { HasRoom self.old }
        ensures { self.new ≡ with_refusal self.old }
    {
        self.refused += 1;
    }
}
