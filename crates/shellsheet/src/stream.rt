// Reading a sheet to its end, and what is said on standard error.
ghost use Rattle.std.specs.Prelude.{◌≤◌, length, IfOk};

use std::io;
use std::io::{Error, ErrorKind, Read};

// More reads than 65,536 bytes take: the others are for those that a signal interrupts. So many times a write is tried.
pub(crate) const TURNS: u64 = 1000000000;

// The number of the error of a call that a signal interrupts, EINTR: of it the system's words are said, of its kind alone std's own.
pub(crate) const INTERRUPTED: i32 = 4;

// Reads until the input ends or `buf` is full, and answers how many bytes were put at its start.
// std's read_to_end takes memory, which is left to errors (main.rt), and ends at no bound. A read that a signal interrupts puts no byte, so the loop counts its turns, and not `done`.
// trials has a loop of its own, which tells no error: with this one it would have an error to say, which its stored listing tells.
pub(crate) fn read_sheet<R: Read>(from: &mut R, buf: &mut [u8]) -> io::Result<usize>
    ensures { IfOk result (λ n. n ≤ length buf.new) }
{
    let mut done: usize = 0;
    for _ in 0..TURNS {
        if done == buf.len() {
            return Ok(done);
        }
        match from.read(&mut buf[done..]) {
            Ok(0) => return Ok(done),
            Ok(n) => done += n,
            Err(why) if why.kind() == ErrorKind::Interrupted => {}
            Err(why) => return Err(why),
        }
    }
    Err(Error::from_raw_os_error(INTERRUPTED))
}

// Writes `buf` to standard error. What cannot be written there is lost.
pub(crate) fn write_error(rt: &HostRuntime, buf: &[u8]) {
    let _ = rt.stderr().write_all(buf);
}

// The system's words for an error, without the number that std puts behind them. trials has its own: a few lines, for `fail` alone.
fn words_of(text: &str) -> &str {
    match text.split_once(" (os error ") {
        Some((words, _)) => words,
        None => text,
    }
}

// Writes a line to standard error: what failed, as the caller names it, a colon and why; where memory runs out, with the error's number.
pub(crate) fn fail(rt: &HostRuntime, what: &[u8], why: Error) {
    write_error(rt, what);
    let _ = match format!(in rt.alloc(); "{why}") {
        Ok(text) => eprintln!(rt; ": {}", words_of(text.as_str())),
        Err(_) => eprintln!(rt; ": {why}"),
    };
}
