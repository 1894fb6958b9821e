// What a marking has come to.
ghost use Rattle.std.specs.Prelude.{◌≡◌};
ghost use Rattle.planning.specs.Statuses.{word_of};

use std::fmt;

#[derive(Clone, Copy, PartialEq, Eq, Debug)]
pub enum Status {
    // No start was accepted yet.
    Fresh,
    // The search goes on.
    Open,
    // A cheapest solution begins with the marked action.
    Best,
    // There are solutions, and no cheapest one begins with the marked action.
    Other,
    // There is no solution.
    Stuck,
    // The limit was reached without a verdict.
    Spent,
}

// Kept: no plainer: a line of output has the words in small letters, which no derive writes.
impl Status {
    // The status in a line of output.
    pub fn word(&self) -> &'static str
        ensures { result.now ≡ word_of self.now }
    {
        match self {
            Status::Fresh => "fresh",
            Status::Open => "open",
            Status::Best => "best",
            Status::Other => "other",
            Status::Stuck => "stuck",
            Status::Spent => "spent",
        }
    }
}

impl fmt::Display for Status {
    fn fmt<W: fmt::Write>(&self, f: &mut fmt::Formatter<W>) -> fmt::Result {
        f.write_str(self.word())
    }
}
