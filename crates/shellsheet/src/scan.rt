// Where a line stops being of the form. It decides nothing: a line that it is asked about has been refused for its form.
// The grammar stands here once more: `reading` does not say where a line stops being of it, and its theorems are of what it does say.
use crate::say::Byte;
use cases::Groups;
use std::fmt;

// A field of a line: a number of the form.
#[derive(Clone, Copy)]
pub(crate) enum Field {
    Radius,
    Thickness,
    Length,
    Modulus,
    Yield,
    Edges,
    Imperfection,
    Shortfall,
    Axial,
    Ring,
    Shear,
    Gust,
    Vented,
    Pressure,
}

// The name that the form has for it.
impl fmt::Display for Field {
    fn fmt<W: fmt::Write>(&self, f: &mut fmt::Formatter<W>) -> fmt::Result {
        let name = match self {
            Field::Radius => "r",
            Field::Thickness => "t",
            Field::Length => "l",
            Field::Modulus => "E",
            Field::Yield => "fy",
            Field::Edges => "edges",
            Field::Imperfection => "a",
            Field::Shortfall => "d",
            Field::Axial => "sx",
            Field::Ring => "sphi",
            Field::Shear => "tau",
            Field::Gust => "w",
            Field::Vented => "v",
            Field::Pressure => "p",
        };
        write!(f, "{name}")
    }
}

// What the form wants.
#[derive(Clone, Copy)]
pub(crate) enum Want {
    Byte(u8),
    Number(Field),
    // digits stand there, and begin with a zero that leads
    NoLeadingZero(Field),
    // more digits stand there
    SevenDigits(Field),
}

impl fmt::Display for Want {
    fn fmt<W: fmt::Write>(&self, f: &mut fmt::Formatter<W>) -> fmt::Result {
        match self {
            Want::Byte(b) => {
                let byte = Byte(*b);
                write!(f, "{byte} was expected")
            }
            Want::Number(n) => write!(f, "a number for {n} was expected"),
            Want::NoLeadingZero(n) => {
                write!(f, "a number without leading zeros was expected for {n}")
            }
            Want::SevenDigits(n) => {
                write!(f, "a number of at most 7 digits was expected for {n}")
            }
        }
    }
}

// Where a line stops being of the form: what stands from there on, and what the form wants.
#[derive(Clone, Copy)]
pub(crate) struct Stop<'a> {
    pub(crate) rest: &'a [u8],
    pub(crate) want: Want,
}

// What stands behind a part of the form, where that stands at the start.
type Rest<'a> = Result<&'a [u8], Stop<'a>>;

// Behind `text`.
fn after_text<'a>(line: &'a [u8], text: &[u8]) -> Rest<'a> {
    let mut rest = line;
    for b in text {
        match rest.strip_prefix(&[*b]) {
            Some(behind) => rest = behind,
            None => return Err(Stop {
                rest,
                want: Want::Byte(*b),
            }),
        }
    }
    Ok(rest)
}

// Behind a number: 1 to 7 digits without a leading zero.
fn after_number<'a>(line: &'a [u8], n: Field) -> Rest<'a> {
    let end = line.iter().position(|b| !b.is_ascii_digit());
    let end = end.unwrap_or(line.len());
    let want = match &line[..end] {
        [] => Want::Number(n),
        [b'0', _, ..] => Want::NoLeadingZero(n),
        digits if 7 < digits.len() => Want::SevenDigits(n),
        _ => return Ok(&line[end..]),
    };
    Err(Stop { rest: line, want })
}

// Behind a space and a number.
fn after_spaced<'a>(line: &'a [u8], n: Field) -> Rest<'a> {
    after_number(after_text(line, b" ")?, n)
}

// Behind the shortfall, which may be left out.
fn after_shortfall<'a>(line: &'a [u8]) -> Rest<'a> {
    match line {
        [_, b'0'..=b'9', ..] => after_spaced(line, Field::Shortfall),
        _ => Ok(line),
    }
}

// Behind σφ, or wind in its place.
fn after_ring<'a>(line: &'a [u8]) -> Rest<'a> {
    if !line.starts_with(b"(") {
        return after_number(line, Field::Ring);
    }
    let rest = after_text(line, b"(wind")?;
    let rest = after_spaced(rest, Field::Gust)?;
    let rest = after_spaced(rest, Field::Vented)?;
    after_text(rest, b")")
}

// Behind a group, which begins with its space.
fn after_group<'a>(line: &'a [u8]) -> Rest<'a> {
    let rest = after_text(line, b" (stress")?;
    let rest = after_spaced(rest, Field::Axial)?;
    let rest = after_ring(after_text(rest, b" ")?)?;
    let rest = after_spaced(rest, Field::Shear)?;
    after_text(rest, b")")
}

// Behind one to eight groups.
fn after_groups<'a>(line: &'a [u8]) -> Rest<'a> {
    let mut rest = after_group(line)?;
    for _ in 1..Groups::MOST {
        if rest.starts_with(b" (s") {
            rest = after_group(rest)?;
        }
    }
    Ok(rest)
}

// Behind (inner p), which may be left out.
fn after_inner<'a>(line: &'a [u8]) -> Rest<'a> {
    if !line.starts_with(b" ") {
        return Ok(line);
    }
    let rest = after_text(line, b" (inner")?;
    let rest = after_spaced(rest, Field::Pressure)?;
    after_text(rest, b")")
}

// What stands behind the form, or where `line` stops being of it: with the parts above this is the whole grammar.
pub(crate) fn scan_line<'a>(line: &'a [u8]) -> Rest<'a> {
    let mut rest = after_text(line, b"(shell")?;
    for n in [
        Field::Radius,
        Field::Thickness,
        Field::Length,
        Field::Modulus,
        Field::Yield,
        Field::Edges,
        Field::Imperfection,
    ] {
        rest = after_spaced(rest, n)?;
    }
    let rest = after_shortfall(rest)?;
    let rest = after_groups(rest)?;
    let rest = after_inner(rest)?;
    after_text(rest, b")")
}
