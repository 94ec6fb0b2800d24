// Writes the line of a listing for an answer.
#![tactic(auto)]

ghost use Rattle.text.specs.Pages.{Fits, Puts};
ghost use Rattle.listing.specs.Listing.{verdict_word, said_by, entry, entry_by, ended};

use answer::{Answer, Judgement, Verdict};
use text::Page;

// Puts the word of a verdict.
pub fn put_word(page: &mut Page<'_>, v: Verdict)
    requires { Fits page.old (verdict_word v) }
    ensures { Puts page.old (verdict_word v) page.new }
{
    match v {
        Verdict::Holds => page.put(b"holds"),
        Verdict::Fails => page.put(b"fails"),
        Verdict::Open => page.put(b"open"),
    }
}

// Puts what follows the number in the line for an answer.
fn put_said(page: &mut Page<'_>, numbered: Result<Judgement, u64>)
    requires { Fits page.old (said_by numbered) }
    ensures { Puts page.old (said_by numbered) page.new }
{
    match numbered {
        Ok(judgement) => {
            page.put(b" ");
            put_word(page, judgement.verdict);
        }
        Err(n) => {
            page.put(b" refused ");
            page.number(n);
        }
    }
    page.put(b")");
}

// Puts the line for the answer to line k.
pub fn put_entry(page: &mut Page<'_>, k: u64, a: Answer)
    requires { Fits page.old (ended (entry k a)) }
    ensures { Puts page.old (ended (entry k a)) page.new }
{
    put_numbered(page, k, a.map_err(u64::from));
}

// The same of an answer whose refusal is given by its number, which may be any.
#[tactic(auto, using(listing::proofs::Lengths::entry_by_length))]
pub fn put_numbered(page: &mut Page<'_>, k: u64, numbered: Result<Judgement, u64>)
    requires { Fits page.old (ended (entry_by k numbered)) }
    ensures { Puts page.old (ended (entry_by k numbered)) page.new }
{
    page.put(b"(");
    page.number(k);
    put_said(page, numbered);
    page.put(b"\n");
}
