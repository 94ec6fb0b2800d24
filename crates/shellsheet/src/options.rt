// The arguments: options, and the sheets that they name.
ghost use Rattle.std.specs.Prelude.{◌≤◌, length};

use crate::stream::write_error;
use std::env::{Env, FillError};

// Room for an argument: Linux opens no path of so many bytes.
pub(crate) const NAME_ROOM: usize = 4096;

// What is written of a sheet.
#[derive(Clone, Copy, PartialEq, Eq, PartialOrd, Ord)]
pub(crate) enum Say {
    Listing,
    Readings,
    Answers,
}

// What is done. Of several that are asked for, it is the last of these.
#[derive(Clone, Copy, PartialEq, Eq, PartialOrd, Ord)]
pub(crate) enum Task {
    Sheets(Say),
    Version,
    Help,
}

// What an argument is.
#[derive(Clone, Copy)]
enum Word {
    Sheet,
    End,
    Ask(Task),
    Unknown,
}

// Which arguments name sheets.
#[derive(Clone, Copy)]
pub(crate) struct Named {
    // how many do
    pub(crate) sheets: usize,
    // which argument ends the options, if one does
    end: Option<usize>,
}

// What the arguments ask for.
#[derive(Clone, Copy)]
pub(crate) struct Options {
    pub(crate) task: Task,
    pub(crate) named: Named,
}

// How many arguments there are, the program's own name among them. They are taken by their numbers: std's iterator over them takes memory, which is left to errors (main.rt).
pub(crate) fn argument_count(rt: &impl Env) -> usize {
    for i in 0..usize::MAX {
        if let Err(FillError::NotPresent) = rt.arg(i, &mut []) {
            return i;
        }
    }
    usize::MAX
}

// Argument i, below their count, which is put at the start of `buf`; of a longer one what `buf` has room for, and of one that is not there no bytes.
pub(crate) fn argument<'a>(rt: &impl Env, i: usize, buf: &'a mut [u8]) -> &'a [u8]
    ensures { length result.now ≤ length buf.old }
{
    match rt.arg(i, buf) {
        Ok(n) => &buf[..n],
        Err(FillError::TooLong) => buf,
        Err(FillError::NotPresent) => &[],
    }
}

// Whether an argument is an option, before the options end: - alone is a sheet, standard input.
fn is_option(arg: &[u8]) -> bool {
    matches!(arg, [b'-', _, ..])
}

impl Word {
    // What an argument is, before the options end.
    fn of(arg: &[u8]) -> Self {
        match arg {
            b"--" => Word::End,
            b"--explain" => Word::Ask(Task::Sheets(Say::Answers)),
            b"--readings" => Word::Ask(Task::Sheets(Say::Readings)),
            b"--help" => Word::Ask(Task::Help),
            b"--version" => Word::Ask(Task::Version),
            _ if is_option(arg) => Word::Unknown,
            _ => Word::Sheet,
        }
    }
}

// Says on standard error that an option is not known.
fn refuse(rt: &HostRuntime, arg: &[u8]) {
    write_error(rt, b"shellsheet: ");
    write_error(rt, arg);
    write_error(rt, b": no such option; shellsheet --help lists them\n");
}

impl Named {
    // Whether argument i stands behind the one that ends the options.
    fn is_behind(self, i: usize) -> bool {
        self.end.is_some_and(|end| end < i)
    }

    // Whether argument i, which is `arg`, names a sheet.
    pub(crate) fn has(self, i: usize, arg: &[u8]) -> bool {
        self.is_behind(i) || !is_option(arg)
    }
}

impl Options {
    // With one more sheet.
    fn with_sheet(mut self) -> Self {
        self.named.sheets = self.named.sheets.saturating_add(1);
        self
    }

    // With argument i; `None` where it is no option that is known, and standard error says so.
    fn with(mut self, rt: &HostRuntime, i: usize) -> Option<Self> {
        let mut name = [0u8; NAME_ROOM];
        let arg = argument(rt, i, &mut name);
        if self.named.is_behind(i) {
            return Some(self.with_sheet());
        }
        match Word::of(arg) {
            Word::Sheet => return Some(self.with_sheet()),
            Word::End => self.named.end = Some(i),
            Word::Ask(task) => self.task = self.task.max(task),
            Word::Unknown => {
                refuse(rt, arg);
                return None;
            }
        }
        Some(self)
    }

    // What the arguments ask for, up to the first that is no option that is known.
    pub(crate) fn read(rt: &HostRuntime) -> Option<Self> {
        let count = argument_count(rt);
        let mut options = Options {
            task: Task::Sheets(Say::Listing),
            named: Named {
                sheets: 0,
                end: None,
            },
        };
        for i in 1..count {
            options = options.with(rt, i)?;
        }
        Some(options)
    }
}
