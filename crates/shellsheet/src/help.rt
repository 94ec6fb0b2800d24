// What --help and --version print.
use std::io;

// The version, as include/shellsheet.h has it.
pub(crate) fn say_version(rt: &impl Print) -> io::Result<()> {
    println!(rt; "shellsheet 0.8")
}

// The usage, and the form of a line with the caution on units.
const HELP: &str = "usage: shellsheet [--explain | --readings] [--] [FILE..]

Lists a verdict to DIN 18800-4 for each line of a sheet. Without FILE, or for -,
the sheet is standard input. Several files: each listing below a line ==> FILE <==

  --explain   the answers in words: the sum, or what broke the check
  --readings  (line old new) for each line whose verdict is new since 0.8, where the
              test of an internal pressure reads kappa2 without the tolerance
  --help      this text
  --version   the version
  --          ends the options: what follows are files

A line: (shell r t l E fy edges a d (stress sx sphi tau)), in mm, t and d in
hundredths of a mm, E and fy in N/mm2, a in thousandths, stresses in kN/m2; a d of 0
may be left out; sphi may be (wind w v), w in N/m2, v 1 if open or vented, else 0;
up to eight (stress ..) may stand there, one for each load case, and (inner p), the
internal pressure in N/m2, before the last bracket; see shellsheet(1).

STRESSES ARE IN kN/m2: 1 N/mm2 is 1000 kN/m2. A stress typed in N/mm2 is 1000 times
too small, and its shell would hold. So is a w typed in kN/m2. Round stresses, w
and d up, and walls down.
";

pub(crate) fn say_help(rt: &impl Print) -> io::Result<()> {
    rt.print(HELP)
}
