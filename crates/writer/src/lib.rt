// Writes the line of load cases (SCOPE 21 and 26.8).
#![tactic(auto)]

ghost use Rattle.std.specs.Prelude.{◌≡◌, List, ℕ, length};
ghost use Rattle.text.specs.Pages.{Fits, Puts};
ghost use Rattle.text.specs.Slices.{put};
ghost use Rattle.cases.specs.Answering.{load_cases};
ghost use Rattle.reading.specs.Text.{wall_text, ring_text, groups_text, inner_text};
ghost use Rattle.writer.specs.Writing.{Written, line_of, Writes, written_number, written_by};
ghost use Rattle.writer.specs.Writer.{spaced_group, writing};

use answer::Refusal;
use cases::Cases;
use record::{Group, Ring, Wall};
use text::Page;

// A buffer of fewer bytes is refused.
const ROOM_LEAST: usize = 512;

// r t l E fy edges a d
#[tactic(auto, using(crate::proofs::Puts::wall_length))]
fn put_wall(page: &mut Page<'_>, w: Wall)
    requires { Fits page.old (wall_text w) }
    ensures { Puts page.old (wall_text w) page.new }
{
    page.number(w.radius);
    page.spaced(w.thickness);
    page.spaced(w.length);
    page.spaced(w.modulus);
    page.spaced(w.yield_stress);
    page.spaced(w.edges);
    page.spaced(w.imperfection);
    page.spaced(w.shortfall);
}

// σφ, or (wind w v)
fn put_ring(page: &mut Page<'_>, ring: Ring)
    requires { Fits page.old (ring_text ring) }
    ensures { Puts page.old (ring_text ring) page.new }
{
    match ring {
        Ring::Stress(stress) => page.number(stress),
        Ring::Wind(gust, vented) => {
            page.put(b"(wind ");
            page.number(gust);
            page.spaced(vented);
            page.put(b")");
        }
    }
}

// (stress σx σφ τ), or wind in the place of σφ, after a space
#[tactic(auto, using(crate::proofs::Puts::group_length))]
fn put_group(page: &mut Page<'_>, g: Group)
    requires { Fits page.old (spaced_group g) }
    ensures { Puts page.old (spaced_group g) page.new }
{
    page.put(b" (stress ");
    page.number(g.axial);
    page.put(b" ");
    put_ring(page, g.ring);
    page.spaced(g.shear);
    page.put(b")");
}

// The groups, one after the other. By index, so that where it begins and its step are numbers that stand here.
fn put_groups(page: &mut Page<'_>, groups: &[Group])
    requires { Fits page.old (groups_text groups.now) }
    ensures { Puts page.old (groups_text groups.now) page.new }
{
    let mut i = 0;
    while i < groups.len() {
        put_group(page, groups[i]);
        i += 1;
    }
}

// nothing, or (inner p) after a space
fn put_inner(page: &mut Page<'_>, inner: Option<u64>)
    requires { Fits page.old (inner_text inner) }
    ensures { Puts page.old (inner_text inner) page.new }
{
    if let Some(p) = inner {
        page.put(b" (inner ");
        page.number(p);
        page.put(b")");
    }
}

// The line of load cases, with its newline.
#[tactic(auto, using(crate::proofs::Puts::line_length))]
fn put_line(page: &mut Page<'_>, c: &Cases)
    requires { Fits page.old (line_of (load_cases c.now)) }
    ensures { Puts page.old (line_of (load_cases c.now)) page.new }
{
    page.put(b"(shell ");
    put_wall(page, c.wall);
    put_groups(page, c.groups.as_slice());
    put_inner(page, c.inner);
    page.put(b")\n");
}

// Puts the line of load cases at the start of `out`, and gives how many bytes it has.
pub fn write(out: &mut [u8], c: &Cases) -> Result<usize, Refusal>
    ensures writes { Writes (load_cases c.now) out.old out.new result }
    ensures fact { ◌≡◌ {A = Written × List ℕ} (result, out.new) (writing (load_cases c.now) out.old) }
{
    if out.len() < ROOM_LEAST {
        return Err(Refusal::LineRoom);
    }
    if c.groups.is_empty() {
        return Err(Refusal::Form);
    }
    c.check()?;
    let mut page = Page::new(out);
    put_line(&mut page, c);
    Ok(page.length())
}

// The number of an answer in C: the bytes put, or that of the refusal. A function, since neither Result nor u64 is a type of this crate.
pub fn number(written: Result<usize, Refusal>) -> u64
    ensures { result ≡ written_number written }
{
    number_by(written.map_err(u64::from))
}

// The same of an answer whose refusal is given by its number, which may be any.
pub fn number_by(numbered: Result<usize, u64>) -> u64
    ensures { result ≡ written_by numbered }
{
    match numbered {
        Ok(n) => n as u64,
        Err(m) => m,
    }
}
