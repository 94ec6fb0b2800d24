// The answer to a record: a refusal, or a judgement with its verdict and bounds; and the one number that stands for it in C.
#![tactic(auto)]

ghost use Rattle.std.specs.Prelude.{◌≡◌, ◌+◌, ◌*◌, ◌≤◌};
ghost use Rattle.answer.specs.Answers.{verdict_number, refusal_number, judgement_number, answer_number, number_by};
ghost use Rattle.answer.specs.Governing.{worse_of};
ghost use Rattle.answer.specs.Answering.{judgement_of, of_case, Bounded, BoundedBy};

// What is said of a shell, from the best to the worst: so they are compared.
#[derive(Clone, Copy, PartialEq, Eq, PartialOrd, Ord)]
pub enum Verdict {
    Holds,
    Open,
    Fails,
}

// Why a sheet, a line, a record or a list of plates is refused; in C and in a listing each has its number.
#[derive(Clone, Copy, PartialEq, Eq)]
pub enum Refusal {
    // the sheet has too many bytes
    SheetBytes = 1,
    // the sheet has too many lines
    SheetLines = 2,
    // the listing has no room
    ListingRoom = 3,
    // a line has too many bytes
    LineBytes = 4,
    // a line is not of the form
    Form = 5,
    // a number lies outside its range
    Range = 6,
    // the edges are not known
    Edges = 7,
    // the radius in wall thicknesses lies outside its range
    WallRatio = 8,
    // the length in radii lies outside its range
    LengthRatio = 9,
    // an imperfection is too large
    Imperfection = 10,
    // the plate may be thinner by too much
    Shortfall = 11,
    // a line to be written has no room
    LineRoom = 12,
    // the wind's pressure or kind is not allowed
    Wind = 13,
    // the list of plates is empty, too long, or does not rise
    PlateList = 14,
    // a force is too large
    Force = 15,
    // the pressure inside is too high
    Pressure = 16,
}

// A judged record: the verdict, L and U in ten-thousandths, and the load case that governs, counted from 1.
#[derive(Clone, Copy)]
pub struct Judgement {
    pub verdict: Verdict,
    pub low: u64,
    pub high: u64,
    pub case: u64,
}

// The answer to a record: the judgement, or the first check that it breaks.
pub type Answer = Result<Judgement, Refusal>;

// The digit of a verdict in the number of an answer. The digits are not in the order from the best to the worst, which is the enum's, so they stand here.
impl From<Verdict> for u64 {
    ghost from_gives = { λ v n. (n ≡ verdict_number v) × (n ≤ 3) };

    fn from(verdict: Verdict) -> u64 {
        match verdict {
            Verdict::Holds => 1,
            Verdict::Fails => 2,
            Verdict::Open => 3,
        }
    }
}

// The number of a refusal in the published table.
impl From<Refusal> for u64 {
    ghost from_gives = { λ r n. n ≡ refusal_number r };

    fn from(refusal: Refusal) -> u64 {
        refusal as u64
    }
}

impl Judgement {
    // The judgement by L and U: holds if U is at most 10,000, fails if L is over 10,000, open otherwise.
    pub fn by_bounds(low: u64, high: u64) -> Self
        ensures { result ≡ judgement_of low high }
    {
        let verdict = if high <= 10000 {
            Verdict::Holds
        } else if 10000 < low {
            Verdict::Fails
        } else {
            Verdict::Open
        };
        Judgement {
            verdict,
            low,
            high,
            case: 1,
        }
    }

    // The same judgement, of another load case.
    pub fn of_case(self, case: u64) -> Self
        ensures { result ≡ of_case case self }
    {
        Judgement { case, ..self }
    }

    // The one of two that governs: the other only if its verdict is worse.
    pub fn or_worse(self, other: Self) -> Self
        ensures { result ≡ worse_of self other }
    {
        if self.verdict < other.verdict {
            return other;
        }
        self
    }

    // Load case, verdict, L and U in one number.
    fn number(self) -> u64
        requires { Bounded (Ok self) }
        ensures { result ≡ judgement_number self }
    {
        100000000000 * (self.case - 1)
            + 10000000000 * u64::from(self.verdict)
            + 100000 * self.low
            + self.high
    }
}

// The number that the call from C returns for an answer. A function: a `From` asks nothing, and here L and U have to fit their places.
pub fn number(answer: Answer) -> u64
    requires { Bounded answer }
    ensures { result ≡ answer_number answer }
{
    number_by(answer.map_err(u64::from))
}

// The same of an answer whose refusal is given by its number, which may be any.
pub fn number_by(numbered: Result<Judgement, u64>) -> u64
    requires { BoundedBy numbered }
    ensures { result ≡ number_by numbered }
{
    match numbered {
        Ok(judgement) => judgement.number(),
        Err(n) => n,
    }
}
