// A trial: the sheets that the arguments name, one after another. Each gets a line with its name, then its listing.
// Memory is taken only to say an error: a sheet, what is written of it and an argument go into arrays (SCOPE 17.5 for a sheet).
// `fail` and `open` stand in shellsheet too: a library for both would open files, write to standard error and take memory, and no library here does any of
// the three. `words_of` is a few lines for `fail`; `read_full` tells no error, and so is plainer than shellsheet's.
#![tactic(auto)]

ghost use Rattle.std.specs.Prelude.{◌≤◌, length};

use outcome::ROOM;
use std::env::{Env, FillError};
use std::fs::File;
use std::io::{Error, ErrorKind, Read};
use std::{fs, io};

// Writes bytes to standard output. What cannot be written is lost.
fn put(rt: &HostRuntime, text: &[u8]) {
    let _ = rt.write_all(text);
}

// Reads until `buf` is full, the input ends or a read fails, and answers how many bytes were put at its start.
// std's read_to_end takes memory; `done` goes by what each read gives, so no range counts it. shellsheet's `read_sheet` tells errors too, and reads on where a signal interrupts: here a listing that differs from the stored one tells of both.
fn read_full<R: Read>(from: &mut R, buf: &mut [u8]) -> usize
    ensures { result ≤ length buf.new }
{
    let mut done: usize = 0;
    while done < buf.len() {
        match from.read(&mut buf[done..]) {
            Ok(n) if 0 < n => done += n,
            _ => return done,
        }
    }
    done
}

// Writes the listing of the sheet that is open as `file`.
fn list(rt: &HostRuntime, file: &mut File) {
    // SCOPE 17.5: one byte more than `outcome::BYTES_MOST`; if it gets full, the sheet is too long
    let mut sheet = [0u8; 65536];
    let mut listing = [0u8; ROOM];
    let n = read_full(file, &mut sheet);
    match sheet::run(&sheet[..n], &mut listing) {
        Ok(listed) => put(rt, &listing[..listed.length]),
        Err(turned) => {
            let number = u64::from(turned.refusal);
            let _ = println!(rt; "(batch refused {number})");
        }
    }
}

// The system's words for an error, without the number that std puts behind them.
fn words_of(text: &str) -> &str {
    match text.split_once(" (os error ") {
        Some((words, _)) => words,
        None => text,
    }
}

// Says on standard error why the sheet of this name cannot be opened; where memory runs out, with the error's number.
fn fail(rt: &HostRuntime, name: &[u8], why: Error) {
    let _ = rt.stderr().write_all(name);
    let _ = match format!(in rt.alloc(); "{why}") {
        Ok(text) => eprintln!(rt; ": {}", words_of(text.as_str())),
        Err(_) => eprintln!(rt; ": {why}"),
    };
}

// Opens the sheet of this name, which std takes only where it is UTF-8.
fn open(rt: &HostRuntime, name: &[u8]) -> io::Result<File> {
    match str::from_utf8(name) {
        Ok(path) => fs::open(rt, path),
        Err(_) => Err(Error::new(ErrorKind::InvalidFilename, "The name is not UTF-8")),
    }
}

// Writes a name, and the listing of the sheet of that name.
fn show(rt: &HostRuntime, name: &[u8]) {
    put(rt, name);
    put(rt, b"\n");
    match open(rt, name) {
        Ok(mut file) => list(rt, &mut file),
        Err(why) => fail(rt, name, why),
    }
}

fn main(rt: HostRuntime) {
    // by their numbers: std's iterator over the arguments takes memory
    for i in 1..usize::MAX {
        let mut name = [0u8; 4096];
        match rt.arg(i, &mut name) {
            Ok(n) => show(&rt, &name[..n]),
            Err(FillError::TooLong) => show(&rt, b""),
            Err(FillError::NotPresent) => return,
        }
    }
}
