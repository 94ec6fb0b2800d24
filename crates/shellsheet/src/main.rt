// Lists sheets, says their answers in words, or compares two readings of a test: shellsheet [--explain | --readings] [--] [FILE..]. Without a file the sheet is standard input.
// Memory is taken only to say an error: a sheet, what is written of it and an argument go into arrays (SCOPE 17.5 for a sheet).
#![tactic(auto)]

ghost use Rattle.std.specs.Prelude.{List, ℕ, Result, IfOk, ◌≤◌, length};
ghost use Rattle.std.specs.Borrow.{MutBor};
ghost use Rattle.outcome.specs.declared.TurnedBack.{TurnedBack};

mod checks;
mod explain;
mod form;
mod help;
mod options;
mod output;
mod say;
mod scan;
mod stream;

use answer::Refusal;
use explain::say_answers;
use help::{say_help, say_version};
use options::{NAME_ROOM, Named, Options, Say, Task, argument, argument_count};
use outcome::{ROOM, TurnedBack};
use output::Output;
use std::io::{Error, ErrorKind, Read};
use std::{fs, io};
use stream::{fail, read_sheet, write_error};

// Writes "(batch refused N)" and a newline.
fn say_refusal(rt: &impl Print, r: Refusal) -> io::Result<()> {
    let n = u64::from(r);
    println!(rt; "(batch refused {n})")
}

// Writes what a run puts into its buffer, or why it turns the sheet back. `say_answers` has a buffer and a run too, but it wants the counts, and no byte of what is put.
fn say_run<F: FnOnce(&mut [u8]) -> Result<usize, TurnedBack>>(
    rt: &impl Print,
    run: F,
) -> io::Result<()>
    requires callable { F.IsAlwaysCallable run }
    requires bound { (x : MutBor (List ℕ)) (r : Result ℕ TurnedBack) (y : MutBor (List ℕ)) → F.post run x r y → IfOk r (λ n. n ≤ length y.now) }
{
    let mut out = [0u8; ROOM];
    match run(&mut out) {
        Ok(length) => rt.write_all(&out[..length]),
        Err(turned) => say_refusal(rt, turned.refusal),
    }
}

// Writes the listing of a sheet.
fn say_listing(rt: &impl Print, sheet: &[u8]) -> io::Result<()> {
    say_run(rt, |out| Ok(sheet::run(sheet, out)?.length))
}

// Writes a row for each line whose verdicts by the two readings of the pressure's test differ.
fn say_readings(rt: &impl Print, sheet: &[u8]) -> io::Result<()> {
    say_run(rt, |out| readings::run(sheet, out))
}

// Says on standard error why the sheet of this name cannot be read.
fn complain(rt: &HostRuntime, name: &[u8], why: Error) {
    write_error(rt, b"shellsheet: ");
    fail(rt, name, why);
}

// Opens the sheet of this name, which std takes only where it is UTF-8. This and `fail` stand in trials too: a library for both would open files,
// write to standard error and take memory, and no library here does any of the three.
fn open(rt: &HostRuntime, name: &[u8]) -> io::Result<fs::File> {
    match str::from_utf8(name) {
        Ok(path) => fs::open(rt, path),
        Err(_) => Err(Error::new(ErrorKind::InvalidFilename, "The name is not UTF-8")),
    }
}

// What lists sheets: which they are, and what is written of each. Its functions fail where not all is written.
#[derive(Clone, Copy)]
struct Lister<'a> {
    rt: &'a HostRuntime,
    out: Output<'a>,
    named: Named,
    say: Say,
}

impl<'a> Lister<'a> {
    // Writes the line that stands above a listing, if there are several.
    fn say_heading(self, name: &[u8]) -> io::Result<()> {
        if self.named.sheets < 2 {
            return Ok(());
        }
        self.out.write_all(b"==> ")?;
        self.out.write_all(name)?;
        self.out.write_all(b" <==\n")
    }

    // Writes what there is to say of a sheet.
    fn say_sheet(self, name: &[u8], sheet: &[u8]) -> io::Result<()> {
        self.say_heading(name)?;
        match self.say {
            Say::Answers => say_answers(&self.out, sheet),
            Say::Readings => say_readings(&self.out, sheet),
            Say::Listing => say_listing(&self.out, sheet),
        }
    }

    // Lists the sheet that `from` reads.
    fn list<R: Read>(self, from: &mut R, name: &[u8]) -> io::Result<()> {
        // SCOPE 17.5: one byte more than `outcome::BYTES_MOST`; if it gets full, the sheet is too long
        let mut sheet = [0u8; 65536];
        match read_sheet(from, &mut sheet) {
            Ok(n) => self.say_sheet(name, &sheet[..n]),
            Err(why) => {
                complain(self.rt, name, why);
                Ok(())
            }
        }
    }

    // Lists standard input.
    fn list_input(self) -> io::Result<()> {
        self.list(&mut self.rt.stdin(), b"standard input")
    }

    // Lists the sheet of this name.
    fn list_named(self, name: &[u8]) -> io::Result<()> {
        if name == b"-".as_slice() {
            return self.list_input();
        }
        match open(self.rt, name) {
            Ok(mut file) => self.list(&mut file, name),
            Err(why) => {
                complain(self.rt, name, why);
                Ok(())
            }
        }
    }

    // Lists the sheet that argument i names, if it names one.
    fn list_argument(self, i: usize) -> io::Result<()> {
        let mut buf = [0u8; NAME_ROOM];
        let name = argument(self.rt, i, &mut buf);
        if self.named.has(i, name) {
            self.list_named(name)?;
        }
        Ok(())
    }

    // Lists the sheets that the arguments name, up to the first write that fails; without one standard input.
    fn list_all(self) -> io::Result<()> {
        if self.named.sheets == 0 {
            return self.list_input();
        }
        for i in 1..argument_count(self.rt) {
            self.list_argument(i)?;
        }
        Ok(())
    }
}

// Does what the arguments ask for.
fn run(rt: &HostRuntime, options: Options) -> io::Result<()> {
    let out = Output(rt);
    match options.task {
        Task::Help => say_help(&out),
        Task::Version => say_version(&out),
        Task::Sheets(say) => {
            let named = options.named;
            Lister {
                rt,
                out,
                named,
                say,
            }
            .list_all()
        }
    }
}

fn main(rt: HostRuntime) {
    let Some(options) = Options::read(&rt) else {
        return;
    };
    if let Err(why) = run(&rt, options) {
        fail(&rt, b"shellsheet: standard output", why);
    }
}
