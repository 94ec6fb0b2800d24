// One line of a sheet: the load cases that it spells, composed of its parts. Each part is read at the start of what is left of the line.
#![tactic(auto)]

ghost use Rattle.std.specs.Prelude.{◌≡◌, ◌≤◌, ◌<◌, length, Option, Some, IfSome};
ghost use Rattle.std.specs.Option.{option_map};
ghost use Rattle.format.specs.Readers.{found, several, changed};
ghost use Rattle.format.specs.Seen.{seen};
ghost use Rattle.reading.specs.Reading.{or_zero, wall_in, wind_in, spaced, shortfall, shown, wind, ring, group, pressure, inner, form_of};
ghost use Rattle.cases.specs.Answering.{load_cases, Counted};

use cases::{Cases, Groups};
use format::{read_fixed, read_number, read_number_after};
use record::{Group, Ring, Wall};

// A number after a space.
fn read_spaced(rest: &[u8]) -> Option<(u64, &[u8])>
    ensures { seen result ≡ spaced rest.now }
{
    read_number_after(rest, b" ")
}

// d after a space, or no bytes for a d of 0.
#[tactic(auto, unfolding(format::specs::Readers::one_of, format::specs::Readers::empty, format::specs::Readers::changed, crate::specs::Reading::shortfall))]
fn read_shortfall(rest: &[u8]) -> (u64, &[u8])
    ensures { found result.0 result.1.now ≡ changed or_zero shortfall rest.now }
{
    read_spaced(rest).unwrap_or((0, rest))
}

// r t l E fy edges a, and d where it is there
#[tactic(auto, unfolding(format::specs::Readers::sequence, format::specs::Readers::changed, crate::specs::Reading::shown))]
fn read_wall(rest: &[u8]) -> Option<(Wall, &[u8])>
    ensures { seen result ≡ changed wall_in shown rest.now }
{
    let (radius, rest) = read_number(rest)?;
    let (thickness, rest) = read_spaced(rest)?;
    let (length, rest) = read_spaced(rest)?;
    let (modulus, rest) = read_spaced(rest)?;
    let (yield_stress, rest) = read_spaced(rest)?;
    let (edges, rest) = read_spaced(rest)?;
    let (imperfection, rest) = read_spaced(rest)?;
    let (shortfall, rest) = read_shortfall(rest);
    let wall = Wall {
        radius,
        thickness,
        length,
        modulus,
        yield_stress,
        edges,
        imperfection,
        shortfall,
    };
    Some((wall, rest))
}

// (wind w v), after a space
#[tactic(auto, unfolding(format::specs::Readers::sequence, format::specs::Readers::changed, crate::specs::Reading::wind))]
fn read_wind(rest: &[u8]) -> Option<(Ring, &[u8])>
    ensures { seen result ≡ changed wind_in wind rest.now }
{
    let (gust, rest) = read_number_after(rest, b" (wind ")?;
    let (vented, rest) = read_spaced(rest)?;
    let rest = read_fixed(rest, b")")?;
    Some((Ring::Wind(gust, vented), rest))
}

// σφ or wind, after a space
#[tactic(auto, unfolding(format::specs::Readers::one_of, format::specs::Readers::changed, crate::specs::Reading::ring))]
fn read_ring(rest: &[u8]) -> Option<(Ring, &[u8])>
    ensures { seen result ≡ ring rest.now }
{
    match read_spaced(rest) {
        Some((stress, rest)) => Some((Ring::Stress(stress), rest)),
        None => read_wind(rest),
    }
}

// (stress σx σφ τ), or wind in the place of σφ, after a space
#[tactic(auto, unfolding(format::specs::Readers::sequence, format::specs::Readers::changed, crate::specs::Reading::group))]
fn read_group(rest: &[u8]) -> Option<(Group, &[u8])>
    ensures { seen result ≡ group rest.now }
{
    let (axial, rest) = read_number_after(rest, b" (stress ")?;
    let (ring, rest) = read_ring(rest)?;
    let (shear, rest) = read_spaced(rest)?;
    let rest = read_fixed(rest, b")")?;
    Some((Group { axial, ring, shear }, rest))
}

// The groups, each after a space: as many as are there, and at most eight.
fn read_groups(rest: &[u8]) -> (Groups, &[u8])
    ensures { found result.0 result.1.now ≡ several 8 group rest.now }
{
    let mut groups = Groups::new();
    let mut left = rest;
    for _ in 0..Groups::MOST {
        let Some((group, after)) = read_group(left) else {
            return (groups, left);
        };
        groups.push(group);
        left = after;
    }
    (groups, left)
}

// p of (inner p), after a space
#[tactic(auto, unfolding(format::specs::Readers::sequence, format::specs::Readers::changed, crate::specs::Reading::pressure))]
fn read_pressure(rest: &[u8]) -> Option<(u64, &[u8])>
    ensures { seen result ≡ pressure rest.now }
{
    let (p, rest) = read_number_after(rest, b" (inner ")?;
    Some((p, read_fixed(rest, b")")?))
}

// (inner p) after a space, or no bytes
#[tactic(auto, unfolding(format::specs::Readers::one_of, format::specs::Readers::empty, crate::specs::Reading::inner))]
fn read_inner(rest: &[u8]) -> (Option<u64>, &[u8])
    ensures { found result.0 result.1.now ≡ inner rest.now }
{
    match read_pressure(rest) {
        Some((p, rest)) => (Some(p), rest),
        None => (None, rest),
    }
}

// The load cases that a line spells; None where it spells none.
#[tactic(auto, unfolding(format::specs::Readers::sequence, format::specs::Readers::changed, format::specs::Readers::one_to, crate::specs::Reading::groups, crate::specs::Reading::line, crate::specs::Reading::form_of))]
pub fn read(line: &[u8]) -> Option<Cases>
    ensures value { option_map load_cases result ≡ form_of line.now }
    ensures counted { IfSome result Counted }
{
    let rest = read_fixed(line, b"(shell ")?;
    let (wall, rest) = read_wall(rest)?;
    let (groups, rest) = read_groups(rest);
    if groups.is_empty() {
        return None;
    }
    let (inner, rest) = read_inner(rest);
    let rest = read_fixed(rest, b")")?;
    if !rest.is_empty() {
        return None;
    }
    Some(Cases {
        wall,
        groups,
        inner,
    })
}
