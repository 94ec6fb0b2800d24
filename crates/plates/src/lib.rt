// Choosing a stock plate (SCOPE 24): the first of a list whose verdict is holds. A thicker plate can fail where a thinner one holds, so each is
// looked at by itself, one after the other.
#![tactic(auto)]

ghost use Rattle.std.specs.Prelude.{◌≡◌, true, ◌*◌, ◌≤◌, position};
ghost use Rattle.answer.specs.Answering.{refusal_by};
ghost use Rattle.record.specs.Limits.{cylinder_of};
ghost use Rattle.plates.specs.Plates.{wall_of, rising, list_allowed, forces_up_to, choice_checks, RightChoice, chosen_number, chosen_by};
ghost use Rattle.plates.specs.Choosing.{unloaded as unloaded_of, refusal_of, early, fits, plate_judgement, plate_holds, choosing, PlaceBounded, PlaceBoundedBy};

use answer::{Judgement, Refusal, Verdict};
use bounds::Load;
use cylinder::ByStress;
use record::{Group, Record, ValidRecord, Wall};

// A shell without its thickness and its load. Each field is any u64.
#[derive(Clone, Copy)]
pub struct Shell {
    // r, radius of the middle surface, mm
    pub radius: u64,
    // l, mm
    pub length: u64,
    // E, modulus, N/mm²
    pub modulus: u64,
    // fy, yield stress, N/mm²
    pub yield_stress: u64,
    // a digit for each edge
    pub edges: u64,
    // a, worst ratio of found to permitted imperfection, thousandths
    pub imperfection: u64,
}

// Forces per length of edge, N/mm, compression positive. A type of their own: its check, `are_up_to`, is a method, and would be a free function over
// a `ByStress<u64>`, whose name would say stresses of what are forces.
#[derive(Clone, Copy)]
pub struct Forces {
    pub axial: u64,
    pub ring: u64,
    pub shear: u64,
}

// What is chosen: the place of a plate in the list, from 1; none, where no plate holds; or the first check that is broken.
pub type Chosen = Result<Option<usize>, Refusal>;

const PLATES_MOST: usize = 64;

const FORCE_MOST: u64 = 100000;

// The stress of 1 N/mm on 1/100 mm, in kN/m².
const STRESS: u64 = 100000;

impl Shell {
    // The wall of a plate.
    fn wall(self, thickness: u64) -> Wall
        ensures { result ≡ wall_of self thickness }
    {
        Wall {
            radius: self.radius,
            thickness,
            length: self.length,
            modulus: self.modulus,
            yield_stress: self.yield_stress,
            edges: self.edges,
            imperfection: self.imperfection,
            shortfall: 0,
        }
    }

    // The record of a plate without any stress.
    fn unloaded(self, thickness: u64) -> Record
        ensures { result ≡ unloaded_of self thickness }
    {
        Record::of(self.wall(thickness), Group::NONE)
    }

    // Ok, or the refusal of the first check that it breaks.
    #[tactic(auto, unfolding(crate::specs::Choosing::refusal_of))]
    fn check(self, thickness: u64) -> Result<(), Refusal>
        ensures { result ≡ refusal_of self thickness }
    {
        self.unloaded(thickness).check()
    }
}

impl Forces {
    // Whether no force is over `most`.
    fn are_up_to(self, most: u64) -> bool
        ensures { result ≡ forces_up_to most self }
    {
        self.axial <= most && self.ring <= most && self.shear <= most
    }
}

// The stress of a force on a wall.
fn load(force: u64, thickness: u64) -> Load
    requires { (force ≤ 70000) × (thickness ≤ 10000) }
    ensures { (result.num ≡ 100000 * force) × (result.den ≡ thickness) }
{
    Load {
        num: STRESS * force,
        den: thickness,
    }
}

// Whether each plate is thicker than the one before it.
fn is_rising(plates: &[u64]) -> bool
    ensures { result ≡ rising plates.now }
{
    plates.is_sorted_by(|thin, thick| *thin < *thick)
}

// Whether the list passes check 14.
fn is_list(plates: &[u64]) -> bool
    ensures { result ≡ list_allowed plates.now }
{
    !plates.is_empty() && plates.len() <= PLATES_MOST && is_rising(plates)
}

// Whether a refusal of the shell goes before that of the forces.
fn is_early(shell: Result<(), Refusal>) -> bool
    ensures { result ≡ early shell }
{
    matches!(shell, Err(Refusal::Range | Refusal::Edges))
}

// A shell and the forces on it, for which a plate is chosen.
#[derive(Clone, Copy)]
struct Choice {
    shell: Shell,
    forces: Forces,
}

impl Choice {
    // Whether a plate is a candidate, and not passed over, if no check of the choice is broken.
    #[tactic(auto, using(crate::proofs::Shells::unbroken_thickness))]
    fn is_fit(self, thickness: u64) -> bool
        ensures { result ≡ fits self.shell self.forces thickness }
    {
        // no stress is over 700,000 kN/m²
        self.shell.check(thickness).is_ok() && self.forces.are_up_to(7 * thickness)
    }

    // The judgement of a candidate, which breaks no check by `fits`.
    #[tactic(auto, using(crate::proofs::Shells::fits_passed, crate::proofs::Shells::fits_thickness, crate::proofs::Shells::fits_forces))]
    fn judgement(self, thickness: u64) -> Judgement
        requires { fits self.shell self.forces thickness ≡ true }
        ensures { result ≡ plate_judgement self.shell self.forces thickness }
    {
        let loads = ByStress {
            axial: load(self.forces.axial, thickness),
            ring: load(self.forces.ring, thickness),
            shear: load(self.forces.shear, thickness),
        };
        let plate = ValidRecord {
            given: self.shell.unloaded(thickness),
        };
        let b = bounds::of_sum(plate.cylinder(), loads, 0);
        Judgement::by_bounds(b.low, b.high)
    }

    // Whether a plate is a candidate with the verdict holds; open is not.
    #[tactic(auto, using(crate::proofs::Choices::same_holds), unfolding(crate::specs::Choosing::plate_holds))]
    fn holds(self, thickness: u64) -> bool
        ensures { result ≡ plate_holds self.shell self.forces thickness }
    {
        self.is_fit(thickness) && self.judgement(thickness).verdict == Verdict::Holds
    }

    // Ok, or the refusal of the first check that is broken. The shell is checked with a thickness in its range that keeps check 8 with any
    // radius in its range.
    #[tactic(auto, using(crate::proofs::Shells::by_shell))]
    fn check(self, plates: &[u64]) -> Result<(), Refusal>
        ensures { result ≡ refusal_by (choice_checks self.shell self.forces plates.now) }
    {
        if !is_list(plates) {
            return Err(Refusal::PlateList);
        }
        let shell = self
            .shell
            .check(self.shell.radius.min(Record::THICKNESS_MOST));
        if is_early(shell) {
            return shell;
        }
        if !self.forces.are_up_to(FORCE_MOST) {
            return Err(Refusal::Force);
        }
        shell
    }

    // The place of the first plate that holds, counted from 0.
    fn first(self, plates: &[u64]) -> Option<usize>
        ensures { result ≡ position (plate_holds self.shell self.forces) plates.now }
    {
        plates.iter().position(|t| self.holds(*t))
    }
}

// The first plate of the list whose verdict is holds.
pub fn choose(s: Shell, f: Forces, plates: &[u64]) -> Chosen
    ensures value { result ≡ choosing s f plates.now }
    ensures right_choice { RightChoice plate_judgement s f plates.now result }
{
    let choice = Choice {
        shell: s,
        forces: f,
    };
    choice.check(plates)?;
    Ok(choice.first(plates).map(|i| i + 1))
}

// The number that the call from C returns for a choice. A function: a `From` asks nothing, and here the place has to fit.
pub fn number(chosen: Chosen) -> u64
    requires { PlaceBounded chosen }
    ensures { result ≡ chosen_number chosen }
{
    number_by(chosen.map_err(u64::from))
}

// The same of a choice whose refusal is given by its number, which may be any.
pub fn number_by(numbered: Result<Option<usize>, u64>) -> u64
    requires { PlaceBoundedBy numbered }
    ensures { result ≡ chosen_by numbered }
{
    match numbered {
        Ok(Some(place)) => 100 + place as u64,
        Ok(None) => 100,
        Err(n) => n,
    }
}
