// One record: its limits, and its judge.
#![tactic(auto)]

ghost use Rattle.std.specs.Prelude.{◌≡◌, true, ◌*◌, ◌≤◌, MatchResult};
ghost use Rattle.answer.specs.Checks.{AllPassed, FirstBroken};
ghost use Rattle.answer.specs.Answering.{refusal_by};
ghost use Rattle.line_bounds.specs.Means.{GainMeans};
ghost use Rattle.record.specs.Limits.{from_to, in_range, dimensions, material, ring_in_range, stresses, edges_known, effective_wall, wall_ratio, length_ratio, wind_allowed, pressure_of, checks, cylinder_of, unpressed, with_inner};
ghost use Rattle.record.specs.Right.{ring_stress, Right};
ghost use Rattle.pressure.specs.declared.Order.TheVariants.{PressureFirst};
ghost use Rattle.record.specs.Answering.{has_load, wanted_of, needed_of, WorkedOn, judgement_of_record, record_answer, ring_stress_of, gain_of_record};

use answer::{Answer, Judgement, Refusal};
use bounds::Load;
use cylinder::{ByStress, Cylinder, ValidCylinder};
use line_bounds::{Gain, Pressed, Worked};
use pressure::{Order, ValidPressure};

// A shell without its load: its wall, material and edges. Each field is any u64.
// Cylinder and the plates' Shell have fields of the same names. A part that they share would save the lines of the two functions that copy them, and
// cost a nested name wherever code or a definition reads one.
#[derive(Clone, Copy)]
pub struct Wall {
    // r, radius of the middle surface, mm
    pub radius: u64,
    // t, hundredths of a mm
    pub thickness: u64,
    // l, mm
    pub length: u64,
    // E, modulus, N/mm²
    pub modulus: u64,
    // fy, yield stress, N/mm²
    pub yield_stress: u64,
    // a digit for each edge, as a line or a call from C writes it; check 7 says which are known
    pub edges: u64,
    // a, worst ratio of found to permitted imperfection, thousandths
    pub imperfection: u64,
    // d, permitted shortfall of the thickness, hundredths of a mm
    pub shortfall: u64,
}

// The load around the shell.
#[derive(Clone, Copy)]
pub enum Ring {
    // σφ
    Stress(u64),
    // w, gust pressure at the stagnation point, N/m²; v, 0 for a closed shell, 1 for an open or vented one, and any number until check 13 is made.
    // No names of fields: the definitions have `Wind w v`, in this order.
    Wind(u64, u64),
}

// A stress group, kN/m², compression positive.
#[derive(Clone, Copy)]
pub struct Group {
    // σx
    pub axial: u64,
    // σφ, or the wind that makes it
    pub ring: Ring,
    // τ
    pub shear: u64,
}

// A shell with its load. Cases has the wall and the pressure likewise, with a list of groups. A part that they share would save two fields, and cost a
// nested name wherever code or a definition reads one; a type of both by a parameter for the groups would be named with it in each definition.
#[derive(Clone, Copy)]
pub struct Record {
    pub wall: Wall,
    pub group: Group,
    // p, the pressure inside the shell, N/m²; the group for it may be missing
    pub inner: Option<u64>,
}

// Whether x lies from low to high.
fn in_range(x: u64, low: u64, high: u64) -> bool
    ensures { result ≡ from_to low high x }
{
    (low..=high).contains(&x)
}

// A whole stress. Its bound is asked here, and said where wind gives a stress (`stress_on` and `ring_stress` below), in clauses: a type of a stress
// within it would be a third beside the number, which `Record::ring_stress` gives, and the Load.
fn load(stress: u64) -> Load
    requires { stress ≤ 700000 }
    ensures { (result.num ≡ stress) × (result.den ≡ 1) }
{
    Load {
        num: stress,
        den: 1,
    }
}

impl Wall {
    // Whether radius, thickness and length lie in their ranges.
    fn has_dimensions(self) -> bool
        ensures { result ≡ dimensions self }
    {
        in_range(self.radius, Record::RADIUS_LEAST, Record::RADIUS_MOST)
            && in_range(
                self.thickness,
                Record::THICKNESS_LEAST,
                Record::THICKNESS_MOST,
            )
            && in_range(self.length, Record::LENGTH_LEAST, Record::LENGTH_MOST)
    }

    // Whether modulus and yield stress lie in their ranges.
    fn has_material(self) -> bool
        ensures { result ≡ material self }
    {
        in_range(self.modulus, Record::MODULUS_LEAST, Record::MODULUS_MOST)
            && in_range(self.yield_stress, Record::YIELD_LEAST, Record::YIELD_MOST)
    }

    // Whether the wall passes check 7.
    fn has_known_edges(self) -> bool
        ensures { result ≡ edges_known self }
    {
        matches!(
            self.edges,
            Record::EDGES_HELD | Record::EDGES_MIXED | Record::EDGES_FREE
        )
    }

    // The effective wall in 200ths of a mm. That the thickness is within its range is a clause, here and below, and no type of a wall in its ranges:
    // `cylinder` asks its callers for the thickness alone, and such a type would ask them for the other ranges too.
    fn effective_wall(self) -> u64
        requires { self.thickness ≤ 10000 }
        ensures value { result ≡ effective_wall self }
        ensures upper_bound { result ≤ 20000 }
    {
        let nominal = 2 * self.thickness;
        if self.thickness < Record::THICKNESS_AS_NOMINAL {
            nominal.saturating_sub(self.shortfall)
        } else {
            nominal
        }
    }

    // Whether the wall passes check 8.
    fn has_wall_ratio(self) -> bool
        requires { (self.radius ≤ 50000) × (self.thickness ≤ 10000) }
        ensures { result ≡ wall_ratio self }
    {
        let wall = self.effective_wall();
        in_range(
            200 * self.radius,
            Record::THICKNESSES_LEAST * wall,
            Record::THICKNESSES_MOST * wall,
        )
    }

    // Whether the wall passes check 9.
    fn has_length_ratio(self) -> bool
        requires { (self.radius ≤ 50000) × (self.length ≤ 200000) }
        ensures { result ≡ length_ratio self }
    {
        self.radius <= Record::LENGTHS_MOST * self.length
            && self.length <= Record::RADII_MOST * self.radius
    }

    // The cylinder of a wall.
    pub fn cylinder(self) -> Cylinder
        requires { self.thickness ≤ 10000 }
        ensures { result ≡ cylinder_of self }
    {
        Cylinder {
            radius: self.radius,
            wall: self.effective_wall(),
            length: self.length,
            modulus: self.modulus,
            yield_stress: self.yield_stress,
            edges: self.edges,
            imperfection: self.imperfection,
        }
    }
}

impl Ring {
    // Whether a plain stress lies in its range; wind has check 13.
    fn is_in_range(self) -> bool
        ensures { result ≡ ring_in_range self }
    {
        match self {
            Ring::Stress(stress) => stress <= Record::STRESS_MOST,
            Ring::Wind(_, _) => true,
        }
    }

    // Whether the load passes check 13.
    pub fn has_allowed_wind(self) -> bool
        ensures { result ≡ wind_allowed self }
    {
        match self {
            Ring::Stress(_) => true,
            Ring::Wind(gust, vented) => { gust <= Record::GUST_MOST && vented <= Record::VENTED }
        }
    }

    // Whether there is a ring stress, or wind that makes one.
    fn is_loaded(self) -> bool
        ensures { result ≡ has_load self }
    {
        match self {
            Ring::Stress(stress) => 0 < stress,
            Ring::Wind(gust, _) => 0 < gust,
        }
    }

    // The ring stress on a cylinder.
    fn stress_on(self, s: ValidCylinder) -> u64
        requires { (ring_in_range self ≡ true) × (wind_allowed self ≡ true) }
        ensures value { result ≡ ring_stress s.cylinder self }
        ensures upper_bound { result ≤ 700000 }
    {
        match self {
            Ring::Stress(stress) => stress,
            Ring::Wind(gust, vented) => wind::ring_stress(s, gust, vented == Record::VENTED),
        }
    }
}

impl Group {
    // No stress at all. A name and no `Default`: where it stands, it is said that no stress is meant.
    pub const NONE: Group = Group {
        axial: 0,
        ring: Ring::Stress(0),
        shear: 0,
    };

    // Whether each stress lies in its range.
    pub fn has_stresses(self) -> bool
        ensures { result ≡ stresses self }
    {
        self.axial <= Record::STRESS_MOST
            && self.ring.is_in_range()
            && self.shear <= Record::STRESS_MOST
    }

    // Which places of S the group may need: that of ring stress for any wind. `Cases` asks `needed`; this stays for callers, to whom it was promised.
    pub fn wanted(self) -> ByStress<bool>
        ensures { result ≡ wanted_of self }
    {
        let needed = self.needed();
        let ring = match self.ring {
            Ring::Stress(_) => needed.ring,
            Ring::Wind(_, _) => true,
        };
        ByStress { ring, ..needed }
    }

    // Which places of S the group needs.
    pub fn needed(self) -> ByStress<bool>
        ensures { result ≡ needed_of self }
    {
        ByStress {
            axial: 0 < self.axial,
            ring: self.ring.is_loaded(),
            shear: 0 < self.shear,
        }
    }
}

impl Record {
    // Each limit is a constant, as SCOPE 17.3 has it, also where two make a range: a caller may need one end (the plates do), and check 8 multiplies both.
    pub const RADIUS_LEAST: u64 = 100;

    pub const RADIUS_MOST: u64 = 50000;

    pub const THICKNESS_LEAST: u64 = 100;

    pub const THICKNESS_MOST: u64 = 10000;

    pub const LENGTH_LEAST: u64 = 10;

    pub const LENGTH_MOST: u64 = 200000;

    pub const MODULUS_LEAST: u64 = 60000;

    pub const MODULUS_MOST: u64 = 220000;

    pub const YIELD_LEAST: u64 = 100;

    pub const YIELD_MOST: u64 = 700;

    pub const STRESS_MOST: u64 = 700000;

    pub const IMPERFECTION_MOST: u64 = 2000;

    pub const SHORTFALL_MOST: u64 = 50;

    pub const GUST_MOST: u64 = 10000;

    pub const PRESSURE_MOST: u64 = 1000000;

    // an open or vented shell; 0 is a closed one
    pub const VENTED: u64 = 1;

    // from this thickness up the effective wall is the nominal one
    pub const THICKNESS_AS_NOMINAL: u64 = 500;

    // edges: both held axially, one, none
    pub const EDGES_HELD: u64 = 11;

    pub const EDGES_MIXED: u64 = 12;

    pub const EDGES_FREE: u64 = 22;

    // a radius in wall thicknesses
    pub const THICKNESSES_LEAST: u64 = 20;

    pub const THICKNESSES_MOST: u64 = 2500;

    // a radius in lengths, and a length in radii
    pub const LENGTHS_MOST: u64 = 20;

    pub const RADII_MOST: u64 = 50;

    // Whether the record passes check 6.
    fn is_in_range(self) -> bool
        ensures { result ≡ in_range self }
    {
        self.wall.has_dimensions() && self.wall.has_material() && self.group.has_stresses()
    }

    // The pressure inside, 0 where its group is missing.
    pub fn pressure(self) -> u64
        ensures { result ≡ pressure_of self.inner }
    {
        self.inner.unwrap_or(0)
    }

    // Ok, or the refusal of the first check that the record breaks.
    pub fn check(self) -> Result<(), Refusal>
        ensures { result ≡ refusal_by (checks self) }
    {
        if !self.is_in_range() {
            return Err(Refusal::Range);
        }
        if !self.wall.has_known_edges() {
            return Err(Refusal::Edges);
        }
        if Self::SHORTFALL_MOST < self.wall.shortfall {
            return Err(Refusal::Shortfall);
        }
        if !self.wall.has_wall_ratio() {
            return Err(Refusal::WallRatio);
        }
        if !self.wall.has_length_ratio() {
            return Err(Refusal::LengthRatio);
        }
        if Self::IMPERFECTION_MOST < self.wall.imperfection {
            return Err(Refusal::Imperfection);
        }
        if !self.group.ring.has_allowed_wind() {
            return Err(Refusal::Wind);
        }
        if Self::PRESSURE_MOST < self.pressure() {
            return Err(Refusal::Pressure);
        }
        Ok(())
    }

    // The record as one that breaks no check, or the refusal of the first check that it breaks.
    fn valid(self) -> Result<ValidRecord, Refusal>
        ensures { MatchResult result (λ v. v.given ≡ self) (FirstBroken (checks self)) }
    {
        self.check()?;
        Ok(ValidRecord { given: self })
    }

    // The ring stress that the record is judged with; 0 where it breaks a check: the contract says so of any record (`ring_stress_of`), and keeps its meaning.
    pub fn ring_stress(self) -> u64
        ensures { result ≡ ring_stress_of self }
    {
        self.valid().map_or(0, |valid| valid.ring_stress())
    }

    // What the pressure does to a record that breaks no check, by a reading of its test; `Idle` where it breaks one, as
    // `gain_of_record` has it of any record.
    pub fn gain(self, o: Order) -> Gain
        ensures value { result ≡ gain_of_record o self }
        ensures gain_means { AllPassed (checks self) → GainMeans o (cylinder_of self.wall) (pressure_of self.inner) result }
    {
        self.valid()
            .map_or(Gain::Idle, |valid| valid.pressed(o).gain_under())
    }

    // The answer to a record, by a reading of the pressure's test: the refusal of the first check that it breaks, or the judgement.
    pub fn answer(self, o: Order) -> Answer
        ensures value { result ≡ record_answer o self }
        ensures right { Right o self result }
    {
        Ok(self.valid()?.judgement(o))
    }

    // The record of a shell and a stress group, without pressure inside.
    pub fn of(wall: Wall, group: Group) -> Record
        ensures { result ≡ unpressed wall group }
    {
        Record {
            wall,
            group,
            inner: None,
        }
    }

    // The record with another pressure inside.
    pub fn under(self, inner: Option<u64>) -> Record
        ensures { result ≡ with_inner inner self }
    {
        Record { inner, ..self }
    }

    // The answer to the record of a shell and a stress group.
    pub fn judge(wall: Wall, group: Group) -> Answer
        ensures value { result ≡ record_answer PressureFirst (unpressed wall group) }
        ensures right { Right PressureFirst (unpressed wall group) result }
    {
        Self::of(wall, group).answer(Order::PressureFirst)
    }
}

// A record that breaks no check.
#[derive(Clone, Copy)]
pub struct ValidRecord {
    // as it was given
    pub given: Record,
    pub ghost passed: { AllPassed (checks given) },
}

impl ValidRecord {
    // Its cylinder.
    pub fn cylinder(self) -> ValidCylinder
        ensures { result.cylinder ≡ cylinder_of self.given.wall }
    {
        ValidCylinder {
            cylinder: self.given.wall.cylinder(),
        }
    }

    // Its cylinder with the pressure inside, by a reading of the pressure's test.
    pub fn pressed(self, o: Order) -> Pressed
        ensures order { result.order ≡ o }
        ensures shell { result.shell.cylinder ≡ cylinder_of self.given.wall }
        ensures pressure { result.pressure.pascals ≡ pressure_of self.given.inner }
    {
        let pascals = self.given.pressure();
        Pressed {
            order: o,
            shell: self.cylinder(),
            pressure: ValidPressure { pascals },
        }
    }

    // The ring stress that it is judged with.
    fn ring_stress(self) -> u64
        ensures value { result ≡ ring_stress (cylinder_of self.given.wall) self.given.group.ring }
        ensures upper_bound { result ≤ 700000 }
    {
        self.given.group.ring.stress_on(self.cylinder())
    }

    // The stress group as loads, with the ring stress that it is judged with.
    fn loads(self) -> ByStress<Load>
        ensures axial { (result.axial.num ≡ self.given.group.axial) × (result.axial.den ≡ 1) }
        ensures ring { (result.ring.num ≡ ring_stress (cylinder_of self.given.wall) self.given.group.ring) × (result.ring.den ≡ 1) }
        ensures shear { (result.shear.num ≡ self.given.group.shear) × (result.shear.den ≡ 1) }
    {
        let group = self.given.group;
        ByStress {
            axial: load(group.axial),
            ring: load(self.ring_stress()),
            shear: load(group.shear),
        }
    }

    // The judgement, where what depends on the wall and the pressure alone has been worked before.
    pub fn judgement_by(self, o: Order, w: Worked) -> Judgement
        requires { WorkedOn o self.given w }
        ensures { result ≡ judgement_of_record o self.given }
    {
        let l = self.pressed(o).of_group(w, self.loads());
        Judgement::by_bounds(l.low, l.high)
    }

    // The same, of a record alone.
    fn judgement(self, o: Order) -> Judgement
        ensures { result ≡ judgement_of_record o self.given }
    {
        let b = self.pressed(o).of_line(self.loads());
        Judgement::by_bounds(b.low, b.high)
    }
}

#[cfg(test)]
mod tests {
    use super::*;

    // The places that a group may need, and those that it needs: they differ for wind of a gust of 0.
    #[test]
    fn places_of_a_group(rt: HostRuntime) {
        for (ring, wanted, needed) in [
            (Ring::Stress(0), false, false),
            (Ring::Stress(1), true, true),
            (Ring::Wind(0, 1), true, false),
            (Ring::Wind(1, 0), true, true),
        ] {
            let group = Group {
                axial: 1,
                ring,
                shear: 0,
            };
            assert!(rt; group.wanted().axial && !group.wanted().shear);
            assert!(rt; group.needed().axial && !group.needed().shear);
            assert_eq!(rt; group.wanted().ring, wanted);
            assert_eq!(rt; group.needed().ring, needed);
        }
    }
}
