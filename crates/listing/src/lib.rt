// The counts of the answers in a listing of SCOPE 8, which is defined in `specs/`.
#![tactic(auto)]

ghost use Rattle.std.specs.Prelude.{◌≡◌, ◌<◌};
ghost use Rattle.listing.specs.Listing.{no_counts};
ghost use Rattle.listing.specs.Counting.{with_answer, with_numbered};

use answer::{Answer, Judgement, Verdict};

// The five counts of a listing: of lines, and of the answers of each kind.
#[derive(Clone, Copy, Default)]
pub struct Counts {
    pub lines: u64,
    pub holds: u64,
    pub fails: u64,
    pub opens: u64,
    pub refused: u64,
}

impl Counts {
    // The counts before the first answer. It is `default`, but that they are `no_counts`, by which the definitions go, is promised under this name.
    pub fn none() -> Self
        ensures { result ≡ no_counts }
    {
        Counts::default()
    }

    // The counts with one more answer.
    pub fn with(self, a: Answer) -> Self
        requires { (self.lines < 65536) × (self.holds < 65536) × (self.fails < 65536) × (self.opens < 65536) × (self.refused < 65536) }
        ensures { result ≡ with_answer self a }
    {
        self.with_numbered(a.map_err(u64::from))
    }

    // The same with an answer whose refusal is given by its number, which may be any.
    pub fn with_numbered(mut self, numbered: Result<Judgement, u64>) -> Self
        requires { (self.lines < 65536) × (self.holds < 65536) × (self.fails < 65536) × (self.opens < 65536) × (self.refused < 65536) }
        ensures { result ≡ with_numbered self numbered }
    {
        self.lines += 1;
        match numbered {
            Ok(j) => match j.verdict {
                Verdict::Holds => self.holds += 1,
                Verdict::Fails => self.fails += 1,
                Verdict::Open => self.opens += 1,
            },
            Err(_) => self.refused += 1,
        }
        self
    }
}
