// How numbers, bytes and verdicts are printed.
use answer::Verdict;
use std::fmt;

// So many ten-thousandths, as a number with four decimals.
#[derive(Clone, Copy)]
pub(crate) struct Decimal(pub(crate) u64);

impl Decimal {
    // how many make 1
    pub(crate) const ONE: u64 = 10000;
}

impl fmt::Display for Decimal {
    fn fmt<W: fmt::Write>(&self, f: &mut fmt::Formatter<W>) -> fmt::Result {
        let whole = self.0 / Decimal::ONE;
        let part = self.0 % Decimal::ONE;
        write!(f, "{whole}.{part:04}")
    }
}

// A byte by its name; in quotes, if it is printed; or by its number.
#[derive(Clone, Copy)]
pub(crate) struct Byte(pub(crate) u8);

impl fmt::Display for Byte {
    fn fmt<W: fmt::Write>(&self, f: &mut fmt::Formatter<W>) -> fmt::Result {
        let b = self.0;
        match b {
            0 => write!(f, "a zero byte"),
            b'\t' => write!(f, "a tab"),
            b'\r' => write!(f, "a carriage return"),
            b' ' => write!(f, "a space"),
            b'!'..=b'~' => write!(f, "\"{}\"", char::from(b)),
            _ => write!(f, "the byte {b}"),
        }
    }
}

// A verdict as the verb of a sentence: "is open", where a listing has "open".
#[derive(Clone, Copy)]
pub(crate) struct Words(pub(crate) Verdict);

impl fmt::Display for Words {
    fn fmt<W: fmt::Write>(&self, f: &mut fmt::Formatter<W>) -> fmt::Result {
        match self.0 {
            Verdict::Holds => write!(f, "holds"),
            Verdict::Fails => write!(f, "fails"),
            Verdict::Open => write!(f, "is open"),
        }
    }
}
