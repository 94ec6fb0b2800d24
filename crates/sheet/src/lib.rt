// The sheet run: an answer for each line of a sheet, and the listing of the answers.
#![tactic(auto)]

ghost use Rattle.std.specs.Prelude.{◌≡◌, List, ℕ, ◌≤◌, length};
ghost use Rattle.text.specs.Slices.{put};
ghost use Rattle.reading.specs.Answers.{RightLine};
ghost use Rattle.reading.specs.Answering.{answer_to};
ghost use Rattle.outcome.specs.Sheet.{Outcome, listed_by};
ghost use Rattle.outcome.specs.Demand3.{Demand3};
ghost use Rattle.outcome.specs.Running.{ruled, listing, outcome};

use answer::{Answer, Refusal};
use entry::put_entry;
use lines::Lines;
use listing::Counts;
use outcome::{Listed, Outcome, check};
use pressure::Order;
use reading::read;
use text::Page;
use total::put_total;

// A line of more bytes is refused.
pub const LINE_MOST: usize = 512;

// The answer to a line, by a reading of the pressure's test: refused if it is too long or not of the form, else the answer to its load cases.
pub fn answer(line: &[u8], o: Order) -> Answer
    ensures right_line { RightLine o line.now result }
    ensures value { result ≡ answer_to o line.now }
{
    if LINE_MOST < line.len() {
        return Err(Refusal::LineBytes);
    }
    read(line).ok_or(Refusal::Form)?.answer(o)
}

// Writes the listing of a sheet to the start of `out`, and answers what is said of it.
// `readings::put_rows` has a loop of its own: it puts rows by the numbers of lines, and this one counts answers on the way and puts a total.
fn put_listing(sheet: &[u8], out: &mut [u8]) -> Listed
    requires { (length sheet.now ≤ 65535) × (length (listing sheet.now) ≤ length out.old) }
    ensures value { result ≡ listed_by ruled sheet.now }
    ensures out_after { out.new ≡ put out.old 0 (listing sheet.now) }
{
    let mut page = Page::new(out);
    let mut counts = Counts::none();
    for line in Lines::of(sheet) {
        let a = answer(line, Order::PressureFirst);
        counts = counts.with(a);
        put_entry(&mut page, counts.lines, a);
    }
    put_total(&mut page, counts);
    let length = page.length();
    Listed { counts, length }
}

// The whole run: writes the listing of the sheet to the start of `out`, or turns the sheet back and leaves `out` as it is.
pub fn run(sheet: &[u8], out: &mut [u8]) -> Outcome
    ensures demand3 { Demand3 ruled sheet.now out.old result out.new }
    ensures fact { ◌≡◌ {A = Outcome × List ℕ} (result, out.new) (outcome sheet.now out.old) }
{
    check(sheet, out.len())?;
    Ok(put_listing(sheet, out))
}
