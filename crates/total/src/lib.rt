// Writes the total line of a listing.
#![tactic(auto)]

ghost use Rattle.text.specs.Pages.{Fits, Puts};
ghost use Rattle.listing.specs.Listing.{total, ended};

use listing::Counts;
use text::Page;

// Puts the total line.
#[tactic(auto, using(listing::proofs::Lengths::total_length))]
pub fn put_total(page: &mut Page<'_>, c: Counts)
    requires { Fits page.old (ended (total c)) }
    ensures { Puts page.old (ended (total c)) page.new }
{
    page.put(b"(total");
    page.spaced(c.lines);
    page.spaced(c.holds);
    page.spaced(c.fails);
    page.spaced(c.opens);
    page.spaced(c.refused);
    page.put(b")");
    page.put(b"\n");
}
