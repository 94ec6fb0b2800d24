// What a run gives: the outcome of a sheet, and the checks that turn a sheet back.
#![tactic(auto)]

ghost use Rattle.std.specs.Prelude.{◌≡◌, length};
ghost use Rattle.text.specs.Bytes.{lines};
ghost use Rattle.answer.specs.Answering.{refusal_by};
ghost use Rattle.outcome.specs.Sheet.{sheet_checks, turned_back_by};

use answer::Refusal;
use lines::Lines;
use listing::Counts;

// A sheet of more bytes is turned back.
pub const BYTES_MOST: usize = 65535;

// A sheet of more lines is turned back.
pub const LINES_MOST: usize = 1024;

// A listing takes at most so many bytes for each line of the sheet, and for the total line.
const ENTRY_MOST: usize = 24;

const TOTAL_MOST: usize = 40;

// Room for what is written of any sheet that is not turned back: 24 bytes for each of 1024 lines, and 40 for the total.
pub const ROOM: usize = ENTRY_MOST * LINES_MOST + TOTAL_MOST;

// What is said of a listing: the counts of answers, and how many bytes it has.
#[derive(Clone, Copy)]
pub struct Listed {
    pub counts: Counts,
    pub length: usize,
}

// What is said of a sheet that is turned back: why, and that there is no count and no length.
#[derive(Clone, Copy)]
pub struct TurnedBack {
    pub refusal: Refusal,
    pub counts: Counts,
    pub length: usize,
}

// A check that is broken turns the sheet back.
impl From<Refusal> for TurnedBack {
    ghost from_gives = { λ r t. t ≡ turned_back_by r };

    fn from(refusal: Refusal) -> TurnedBack {
        TurnedBack {
            refusal,
            counts: Counts::none(),
            length: 0,
        }
    }
}

// What a run returns: what is said of the listing, or of a sheet that is turned back.
pub type Outcome = Result<Listed, TurnedBack>;

// How many lines a sheet has: one for each newline, and one for bytes behind the last.
#[tactic(auto, using(text::proofs::Laws::lines_le))]
fn count_lines(sheet: &[u8]) -> usize
    ensures { result ≡ length (lines sheet.now) }
{
    Lines::of(sheet).count()
}

// Whether a sheet is accepted whose listing has so many bytes of room: the first check by which it is turned back, if any is broken.
pub fn check(sheet: &[u8], room: usize) -> Result<(), Refusal>
    ensures { result ≡ refusal_by (sheet_checks sheet.now room) }
{
    if BYTES_MOST < sheet.len() {
        return Err(Refusal::SheetBytes);
    }
    let n = count_lines(sheet);
    if LINES_MOST < n {
        return Err(Refusal::SheetLines);
    }
    if room < ENTRY_MOST * n + TOTAL_MOST {
        return Err(Refusal::ListingRoom);
    }
    Ok(())
}
