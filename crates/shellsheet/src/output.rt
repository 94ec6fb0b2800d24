// Standard output, to which a write that a signal interrupts is tried again.
ghost use Rattle.std.specs.Prelude.{◌≡◌, ◌≤◌};

use crate::stream::{INTERRUPTED, TURNS};
use std::fmt::{Display, Formatter};
use std::io::{Error, ErrorKind};
use std::{fmt, io};

// Of a longer text there is a write for each so many bytes.
const TEXT_ROOM: usize = 1024;

// The runtime's standard output. std's `Print` for it gives up after 64 more tries than there are bytes; this one has as many tries for a write as `read_sheet` has for a sheet.
#[derive(Clone, Copy)]
pub(crate) struct Output<'a>(pub(crate) &'a HostRuntime);

impl<'a> Output<'a> {
    // Writes a value and `end`.
    fn put<D: Display + Drop>(self, value: D, end: &str) -> io::Result<()> {
        let mut f = Formatter::new(Text::new(self));
        let formatted = match f.write(&value) {
            Ok(()) => f.write(end),
            Err(why) => Err(why),
        };
        f.into_inner().finish(formatted)
    }
}

impl Print for Output<'_> {
    fn print<D: Display + Drop>(&self, value: D) -> io::Result<()> {
        self.put(value, "")
    }

    fn println<D: Display + Drop>(&self, value: D) -> io::Result<()> {
        self.put(value, "\n")
    }

    fn write_all(&self, bytes: &[u8]) -> io::Result<()> {
        let mut rest = bytes;
        while !rest.is_empty() {
            match self.write_some(rest)? {
                0 => return Err(Error::from(ErrorKind::WriteZero)),
                n => rest = &rest[n..],
            }
        }
        Ok(())
    }

    fn write_some(&self, bytes: &[u8]) -> io::Result<usize> {
        for _ in 0..TURNS {
            match self.0.write_some(bytes) {
                Err(why) if why.kind() == ErrorKind::Interrupted => {}
                written => return written,
            }
        }
        Err(Error::from_raw_os_error(INTERRUPTED))
    }
}

// A text on its way out, gathered so that a short one takes one write.
#[derive(Drop)]
struct Text<'a> {
    out: Output<'a>,
    bytes: [u8; TEXT_ROOM],
    len: usize,
    // why a write failed: `fmt::Error` cannot say it
    error: Option<Error>,
    ghost in_range: { len ≤ 1024 },
}

impl<'a> Text<'a> {
    fn new(out: Output<'a>) -> Self {
        Text {
            out,
            bytes: [0; TEXT_ROOM],
            len: 0,
            error: None,
        }
    }

    // Writes what is gathered.
    fn flush(&mut self) -> io::Result<()>
        ensures { self.new.len ≡ 0 }
    {
        let len = self.len;
        self.len = 0;
        self.out.write_all(&self.bytes[..len])
    }

    fn push(&mut self, b: u8) -> fmt::Result {
        if self.len == TEXT_ROOM {
            if let Err(why) = self.flush() {
                self.error = Some(why);
                return Err(fmt::Error);
            }
        }
        self.bytes[self.len] = b;
        self.len += 1;
        Ok(())
    }

    // Writes what is left, also where formatting failed.
    fn finish(mut self, formatted: fmt::Result) -> io::Result<()> {
        self.flush()?;
        match self.error {
            Some(why) => Err(why),
            None => Ok(formatted?),
        }
    }
}

impl fmt::Write for Text<'_> {
    fn write_str(&mut self, s: &str) -> fmt::Result {
        for b in s.as_bytes() {
            self.push(*b)?;
        }
        Ok(())
    }
}
