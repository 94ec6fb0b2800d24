// A refused form in words: the byte at which a line stops being of the form, and what was expected there.
use crate::say::Byte;
use crate::scan::{Field, Stop, Want, scan_line};
use std::io;

// The number of the byte of a line at which `rest` begins, counted from 1.
fn place(line: &[u8], rest: &[u8]) -> usize {
    line.len().saturating_sub(rest.len()).saturating_add(1)
}

// What a byte may tell that stands where the form wants something else.
fn hint(b: u8, want: Want) -> &'static str {
    match (b, want) {
        // a number of wind or of pressure has no sign
        (b'-', Want::Number(Field::Gust | Field::Vented | Field::Pressure)) => "",
        (b'-', _) => "; compression is positive, and tension is not covered",
        (b'.' | b',', _) => "; numbers are whole",
        _ => "",
    }
}

// What was expected where a line stops being of the form, and what stands there; of digits that are no number the first says enough.
fn say_stop(rt: &impl Print, stop: Stop<'_>) -> io::Result<()> {
    let want = stop.want;
    print!(rt; "{want}")?;
    match (want, stop.rest) {
        (Want::NoLeadingZero(_) | Want::SevenDigits(_), _) => Ok(()),
        (_, []) => print!(rt; ", and the line ends"),
        (_, [b, ..]) => {
            let byte = Byte(*b);
            let hint = hint(*b, want);
            print!(rt; ", and {byte} stands there{hint}")
        }
    }
}

// Why a line is not of the form.
pub(crate) fn say_form(rt: &impl Print, line: &[u8]) -> io::Result<()> {
    if line.is_empty() {
        return print!(rt; "the line is empty");
    }
    match scan_line(line) {
        Err(stop) => {
            let at = place(line, stop.rest);
            print!(rt; "byte {at}: ")?;
            say_stop(rt, stop)
        }
        Ok([]) => print!(rt;
            "it is not of the form (shell r t l E fy edges a d (stress sx sphi tau))"
        ),
        Ok(rest) => {
            let at = place(line, rest);
            let byte = Byte(rest[0]);
            print!(rt; "byte {at}: {byte} behind the last bracket")
        }
    }
}
