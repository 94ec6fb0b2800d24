// The refusals of a record in words: what broke the check.
use crate::say::Decimal;
use answer::Refusal;
use record::{Group, Record, Ring, Wall};
use std::io;
use std::ops::RangeInclusive;

// A field that is outside its range; nothing of one that is not.
fn say_range(rt: &impl Print, name: &str, x: u64, range: RangeInclusive<u64>) -> io::Result<()> {
    if range.contains(&x) {
        return Ok(());
    }
    let low = range.start();
    let high = range.end();
    print!(rt; "; {name} is {x}, not from {low} to {high}")
}

fn say_dimensions(rt: &impl Print, w: Wall) -> io::Result<()> {
    say_range(
        rt,
        "r (mm)",
        w.radius,
        Record::RADIUS_LEAST..=Record::RADIUS_MOST,
    )?;
    say_range(
        rt,
        "t (hundredths of a mm)",
        w.thickness,
        Record::THICKNESS_LEAST..=Record::THICKNESS_MOST,
    )?;
    say_range(
        rt,
        "l (mm)",
        w.length,
        Record::LENGTH_LEAST..=Record::LENGTH_MOST,
    )
}

fn say_material(rt: &impl Print, w: Wall) -> io::Result<()> {
    say_range(
        rt,
        "E (N/mm2)",
        w.modulus,
        Record::MODULUS_LEAST..=Record::MODULUS_MOST,
    )?;
    say_range(
        rt,
        "fy (N/mm2)",
        w.yield_stress,
        Record::YIELD_LEAST..=Record::YIELD_MOST,
    )
}

fn say_stress(rt: &impl Print, name: &str, stress: u64) -> io::Result<()> {
    say_range(rt, name, stress, 0..=Record::STRESS_MOST)
}

fn say_stresses(rt: &impl Print, g: Group) -> io::Result<()> {
    say_stress(rt, "sx (kN/m2)", g.axial)?;
    if let Ring::Stress(stress) = g.ring {
        say_stress(rt, "sphi (kN/m2)", stress)?;
    }
    say_stress(rt, "tau (kN/m2)", g.shear)
}

// Range: each field that is outside its own.
fn say_ranges(rt: &impl Print, w: Wall, g: Group) -> io::Result<()> {
    print!(rt; "out of range")?;
    say_dimensions(rt, w)?;
    say_material(rt, w)?;
    say_stresses(rt, g)
}

// Edges: no digit pair that is known.
fn say_edges(rt: &impl Print, edges: u64) -> io::Result<()> {
    let held = Record::EDGES_HELD;
    let mixed = Record::EDGES_MIXED;
    let free = Record::EDGES_FREE;
    print!(rt; "the edges are {edges}, not {held}, {mixed} or {free}")?;
    if edges == 21 {
        print!(rt; "; 21 is written {mixed}")?;
    }
    Ok(())
}

// Imperfection, Shortfall and Pressure: a field that is over the most.
fn say_over(rt: &impl Print, what: &str, x: u64, most: u64) -> io::Result<()> {
    print!(rt; "the {what} is {x}, over {most}")
}

// What the effective wall lacks of the nominal one, 200ths of a mm. `Wall` has the effective wall for a t that is in its range, which no type shows here (see `record`).
fn shortfall_counted(w: Wall) -> u64 {
    if Record::THICKNESS_AS_NOMINAL <= w.thickness {
        0
    } else {
        w.shortfall
    }
}

// The effective wall, 200ths of a mm; 0 where d is over it.
fn effective_wall(w: Wall) -> u64 {
    let nominal = w.thickness.saturating_mul(2);
    nominal.saturating_sub(shortfall_counted(w))
}

// A ratio outside its limits, in ten-thousandths: rounded away from them.
enum Outside {
    Below(Decimal),
    Over(Decimal),
}

impl Outside {
    // x / y, of which `least` is allowed; 0 where y is.
    fn of(x: u64, y: u64, least: u64) -> Self {
        let low = x.checked_div(y).unwrap_or(0);
        if low < least || y == 0 {
            Outside::Below(Decimal(low))
        } else {
            Outside::Over(Decimal(x.div_ceil(y)))
        }
    }
}

// WallRatio: r over a wall, which is in 200ths of a mm.
fn say_wall_ratio(rt: &impl Print, w: Wall) -> io::Result<()> {
    let radius = w.radius.saturating_mul(200 * Decimal::ONE);
    let least = Decimal::ONE * Record::THICKNESSES_LEAST;
    match Outside::of(radius, effective_wall(w), least) {
        Outside::Below(ratio) => {
            let least = Record::THICKNESSES_LEAST;
            print!(rt; "r/t is {ratio}, below {least}")
        }
        Outside::Over(ratio) => {
            let most = Record::THICKNESSES_MOST;
            print!(rt; "r/t is {ratio}, over {most}")
        }
    }?;
    if shortfall_counted(w) == 0 {
        return Ok(());
    }
    print!(rt; ", with t less d/2")
}

// LengthRatio: l over r.
fn say_length_ratio(rt: &impl Print, w: Wall) -> io::Result<()> {
    let length = w.length.saturating_mul(Decimal::ONE);
    let least = Decimal::ONE / Record::LENGTHS_MOST;
    match Outside::of(length, w.radius, least) {
        Outside::Below(ratio) => {
            let most = Record::LENGTHS_MOST;
            let hundredths = 100 / most;
            print!(rt; "l/r is {ratio}, below 0.{hundredths:02}, that is 1/{most}")
        }
        Outside::Over(ratio) => {
            let most = Record::RADII_MOST;
            print!(rt; "l/r is {ratio}, over {most}")
        }
    }
}

// Wind: each of its fields that is outside its range.
fn say_wind_fields(rt: &impl Print, r: Ring) -> io::Result<()> {
    print!(rt; "the wind is out of range")?;
    if let Ring::Wind(gust, vented) = r {
        say_range(rt, "w (N/m2)", gust, 0..=Record::GUST_MOST)?;
        say_range(rt, "v", vented, 0..=Record::VENTED)?;
    }
    Ok(())
}

// Pressure, of a record that has one.
fn say_pressure(rt: &impl Print, inner: Option<u64>) -> io::Result<()> {
    match inner {
        None => Ok(()),
        Some(p) => say_over(rt, "internal pressure p (N/m2)", p, Record::PRESSURE_MOST),
    }
}

// Range and Wind of a load case: each of its own fields that is outside its range. A load case breaks no other check.
pub(crate) fn say_own(rt: &impl Print, r: Refusal, g: Group) -> io::Result<()> {
    match r {
        Refusal::Range => {
            print!(rt; "out of range")?;
            say_stresses(rt, g)
        }
        Refusal::Wind => say_wind_fields(rt, g.ring),
        _ => Ok(()),
    }
}

// Why a record is refused.
pub(crate) fn say_check(rt: &impl Print, r: Refusal, c: Record) -> io::Result<()> {
    let w = c.wall;
    let g = c.group;
    match r {
        Refusal::Range => say_ranges(rt, w, g),
        Refusal::Edges => say_edges(rt, w.edges),
        Refusal::WallRatio => say_wall_ratio(rt, w),
        Refusal::LengthRatio => say_length_ratio(rt, w),
        Refusal::Imperfection => say_over(
            rt,
            "imperfection a (thousandths)",
            w.imperfection,
            Record::IMPERFECTION_MOST,
        ),
        Refusal::Shortfall => say_over(
            rt,
            "shortfall d (hundredths of a mm)",
            w.shortfall,
            Record::SHORTFALL_MOST,
        ),
        Refusal::Wind => say_wind_fields(rt, g.ring),
        Refusal::Pressure => say_pressure(rt, c.inner),
        _ => print!(rt; "it breaks a check that has no words"),
    }
}
