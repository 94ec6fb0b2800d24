// The run of both readings of the pressure's test: a row for each line of a sheet whose verdicts by the two differ.
#![tactic(auto)]

ghost use Rattle.std.specs.Prelude.{◌≡◌, Result, Some, List, ℕ, ◌≤◌, length};
ghost use Rattle.text.specs.Slices.{put};
ghost use Rattle.text.specs.Pages.{Fits, Puts};
ghost use Rattle.pressure.specs.declared.Order.TheVariants.{ToleranceFirst, PressureFirst};
ghost use Rattle.reading.specs.Answering.{answer_to};
ghost use Rattle.outcome.specs.declared.TurnedBack.{TurnedBack};
ghost use Rattle.readings.specs.Readings.{change_of, row, Readings};
ghost use Rattle.readings.specs.Running.{differences, comparison};

use answer::{Answer, Verdict};
use entry::put_word;
use lines::Lines;
use listing::Counts;
use outcome::{TurnedBack, check};
use pressure::Order;
use sheet::answer;
use text::Page;

// The verdicts of two answers, old and new, where they differ: a pair, and no type of its own, since the definitions have the pair (`change_of`, `row`).
fn change_of(a: Answer, b: Answer) -> Option<(Verdict, Verdict)>
    ensures { result ≡ change_of a b }
{
    let old = a.ok()?.verdict;
    let new = b.ok()?.verdict;
    if old == new {
        return None;
    }
    Some((old, new))
}

// Puts the row of line k for two verdicts.
#[tactic(auto, using(crate::proofs::Laws::apart_length))]
fn put_verdicts(page: &mut Page<'_>, k: u64, old: Verdict, new: Verdict)
    requires { Fits page.old (row k (Some (old, new))) }
    ensures { Puts page.old (row k (Some (old, new))) page.new }
{
    page.put(b"(");
    page.number(k);
    page.put(b" ");
    put_word(page, old);
    page.put(b" ");
    put_word(page, new);
    page.put(b")");
    page.put(b"\n");
}

// Puts the row of line k, if it has one.
fn put_row(page: &mut Page<'_>, k: u64, change: Option<(Verdict, Verdict)>)
    requires { Fits page.old (row k change) }
    ensures { Puts page.old (row k change) page.new }
{
    if let Some((old, new)) = change {
        put_verdicts(page, k, old, new);
    }
}

// What the two readings say of a line.
fn change_on(line: &[u8]) -> Option<(Verdict, Verdict)>
    ensures { result ≡ change_of (answer_to ToleranceFirst line.now) (answer_to PressureFirst line.now) }
{
    let old = answer(line, Order::ToleranceFirst);
    let new = answer(line, Order::PressureFirst);
    change_of(old, new)
}

// Writes the rows of a sheet to the start of `out`, and answers how many bytes they have.
fn put_rows(sheet: &[u8], out: &mut [u8]) -> usize
    requires { (length sheet.now ≤ 65535) × (length (differences sheet.now) ≤ length out.old) }
    ensures value { result ≡ length (differences sheet.now) }
    ensures out_after { out.new ≡ put out.old 0 (differences sheet.now) }
{
    let mut page = Page::new(out);
    for (line, k) in Lines::of(sheet).zip(1..) {
        put_row(&mut page, k, change_on(line));
    }
    page.length()
}

// The whole run: writes the rows of the sheet to the start of `out` and answers how many bytes they have, or turns the sheet back and leaves `out` as it is.
// What is said of a sheet that is turned back is written out, with no `?`, so that its length is a number that stands here.
pub fn run(sheet: &[u8], out: &mut [u8]) -> Result<usize, TurnedBack>
    ensures readings { Readings (answer_to ToleranceFirst) (answer_to PressureFirst) sheet.now out.old result out.new }
    ensures fact { ◌≡◌ {A = Result ℕ TurnedBack × List ℕ} (result, out.new) (comparison sheet.now out.old) }
{
    match check(sheet, out.len()) {
        Ok(()) => Ok(put_rows(sheet, out)),
        Err(refusal) => Err(TurnedBack {
            refusal,
            counts: Counts::none(),
            length: 0,
        }),
    }
}
