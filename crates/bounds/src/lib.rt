// Bounds of the exact sum (50) of a cylinder: the place of each related slenderness S on a grid and the branches of the curves in which it lies,
// each term from below by one rule, and L and U from the terms. The places depend on the cylinder alone, so several loads share them.
#![tactic(auto)]

ghost use Rattle.std.specs.Prelude.{◌≡◌, ◌*◌, ◌/◌, ◌≤◌, ◌<◌, MatchOption};
ghost use Rattle.cylinder.specs.WholeStress.{excess as excess_of};
ghost use Rattle.lengths.specs.Short.{short_of};
ghost use Rattle.ideal.specs.Decision.{cut_at};
ghost use Rattle.slenderness_terms.specs.TermsFor.{TermsFor};
ghost use Rattle.slenderness_grid.specs.Guessed.{GuessFor};
ghost use Rattle.bounds.specs.Ready.{terms_prop};
ghost use Rattle.bounds.specs.Sides.{Sides};
ghost use Rattle.bounds.specs.Spot.{PlaceOf, SpotOf, SpotsWanted, SpotsLoaded, spots_prop};
ghost use Rattle.bounds.specs.Stresses.{part1_of, part2_of, part_for, part_of, loaded, as_pair, low_of, pair_of, Reads, terms_of, sum_of};

use cylinder::{ByStress, Cylinder, Stress, ValidCylinder};
use lengths::Branch;
use slenderness_grid::{FINE, Grid};
use slenderness_terms::Terms;
use std::cmp::Ordering;
pub use term::Load;
use term::{Branches, Part, Point, Sample};

// How many points the grid of S has to a unit from 2 up; below 2 it is the fine one.
const COARSE: u64 = 8000000;

// Bounds of a term in millionths, or of the sum in ten-thousandths.
#[derive(Clone, Copy)]
pub struct Bounds {
    pub low: u64,
    pub high: u64,
}

// Where S lies for a stress: from k/q to (k + 1)/q, in these branches of the curves.
// The stress and the shell stay outside: a line's load cases share the places, and each would carry them three times.
#[derive(Clone, Copy)]
pub struct Spot {
    pub point: Point,
    pub branches: Branches,
}

// A shell under three stresses, with the places of S that they need.
#[derive(Clone, Copy)]
pub struct Case {
    pub shell: ValidCylinder,
    pub spots: ByStress<Option<Spot>>,
    pub loads: ByStress<Load>,
    pub ghost placed: { SpotsLoaded shell.cylinder loads spots } by { spots_prop shell.cylinder loads spots },
}

// What is known of S before it is looked for: the branch by the length test, the terms of its comparisons, and a guess.
// That the branch is the one of the length test is said here and not by Branch: `ideal::within` and slenderness_grid's `guess_for` and `highest` promise
// their answers for either branch, and would promise them for one alone if Branch said it.
#[derive(Clone, Copy)]
struct Prepared {
    branch: Branch,
    terms: Terms,
    near: u64,
    ghost own: { branch.short ≡ short_of branch.kind branch.shell.cylinder },
    ghost has_terms: { TermsFor branch.kind branch.short branch.shell.cylinder terms } by { terms_prop branch.kind branch.short branch.shell.cylinder terms },
}

// S on its grid: from k/q to (k + 1)/q. The branch is the length test's, as in Prepared.
#[derive(Clone, Copy)]
struct Placed {
    branch: Branch,
    point: Point,
    ghost own: { branch.short ≡ short_of branch.kind branch.shell.cylinder },
    ghost is_place: { PlaceOf (cut_at branch) point },
}

// Where S lies to the limits of the curves' branches. Seven flags, though they hang together: each is a test of the definitions, and one number of
// the piece would have the order of the limits to prove.
#[derive(Clone, Copy)]
struct Limits {
    // S is at most 1/4, 2/5, 1, 3/2
    within_quarter: bool,
    within_two_fifths: bool,
    within_one: bool,
    within_three_halves: bool,
    // S is at least 6/5, 3/2, 2
    reaches_six_fifths: bool,
    reaches_three_halves: bool,
    reaches_two: bool,
}

// What is known of S for a stress.
fn prepare(kind: Stress, s: ValidCylinder) -> Prepared
    ensures branch { (result.branch.kind ≡ kind) × (result.branch.shell ≡ s) }
    ensures guess { GuessFor kind (short_of kind s.cylinder) s.cylinder result.terms result.near }
{
    let branch = lengths::branch_of(kind, s);
    let terms = slenderness_terms::terms_for(branch);
    let near = slenderness_grid::guess_for(branch, terms);
    Prepared {
        branch,
        terms,
        near,
    }
}

impl Prepared {
    // The place of S: on the fine grid where S is below 2, and on the coarse one from 2 up.
    fn place(self) -> Placed
        ensures { result.branch ≡ self.branch }
    {
        let Prepared {
            branch,
            terms,
            near,
        } = self;
        let grid = Grid {
            q: FINE,
            cap: 2 * FINE,
            near,
        };
        let fine = slenderness_grid::highest(branch, terms, grid);
        if fine < grid.cap {
            let point = Point { k: fine, q: grid.q };
            return Placed { branch, point };
        }
        let grid = Grid {
            q: COARSE,
            cap: 4294967295,
            near: near / (FINE / COARSE),
        };
        let coarse = slenderness_grid::highest(branch, terms, grid);
        let point = Point {
            k: coarse,
            q: grid.q,
        };
        Placed { branch, point }
    }
}

impl Placed {
    // Whether S is a/b or more.
    #[tactic(auto, using(crate::proofs::Places::at_reaches))]
    fn reaches(self, a: u64, b: u64) -> bool
        requires { (a ≤ 100) × (b ≤ 100) × (0 < b) × (20 * a ≡ 20 * a / b * b) }
        ensures { result ≡ (cut_at self.branch).reaches a b }
    {
        a * self.point.q <= self.point.k * b
    }

    // Whether S is a/b or less, where a/b is a point of the grid: only where S is placed at a/b itself has it to be compared.
    fn within(self, a: u64, b: u64) -> bool
        requires { (a ≤ 100) × (b ≤ 100) × (0 < b) × (20 * a ≡ 20 * a / b * b) }
        ensures { result ≡ (cut_at self.branch).within a b }
    {
        let x = self.point.k * b;
        let y = a * self.point.q;
        match x.cmp(&y) {
            Ordering::Less => true,
            Ordering::Greater => false,
            Ordering::Equal => ideal::within(self.branch, a, b),
        }
    }

    // Where S lies to the limits of the branches.
    fn limits(self) -> Limits
        ensures { Sides (cut_at self.branch) result }
    {
        Limits {
            within_quarter: self.within(25, 100),
            within_two_fifths: self.within(4, 10),
            within_one: self.within(1, 1),
            within_three_halves: self.within(15, 10),
            reaches_six_fifths: self.reaches(12, 10),
            reaches_three_halves: self.reaches(15, 10),
            reaches_two: self.reaches(2, 1),
        }
    }
}

impl Limits {
    // The branch of κ1.
    fn first_part(self) -> Part
        ensures { part_of result ≡ part1_of self }
    {
        if self.within_two_fifths {
            Part::Plateau
        } else if self.reaches_six_fifths {
            Part::Quadratic
        } else {
            Part::Line
        }
    }

    // The branch of κ2.
    fn second_part(self) -> Part
        ensures { part_of result ≡ part2_of self }
    {
        if self.within_quarter {
            Part::Plateau
        } else if self.within_one {
            Part::Line
        } else if self.within_three_halves {
            Part::Cubic
        } else {
            Part::Quadratic
        }
    }

    // The branch of the reduction factor for a stress.
    fn part_for(self, kind: Stress) -> Part
        ensures { part_of result ≡ part_for kind self }
    {
        match kind {
            Stress::Axial => self.second_part(),
            Stress::Ring | Stress::Shear => self.first_part(),
        }
    }

    // The branches of the curves for a stress.
    fn branches_for(self, kind: Stress) -> Branches
        ensures { Reads kind self result }
    {
        Branches {
            part: self.part_for(kind),
            long: self.reaches_three_halves,
            near: self.within_quarter,
            far: self.reaches_two,
        }
    }
}

// Thousandths over the permitted imperfection.
pub fn excess(s: Cylinder) -> u64
    ensures { result ≡ excess_of s }
{
    s.imperfection.saturating_sub(1000)
}

// Where S lies for a stress.
#[tactic(auto, using(crate::proofs::Stresses::spot_is))]
fn spot_of(p: Prepared) -> Spot
    ensures { SpotOf p.branch.kind p.branch.shell.cylinder result }
{
    let placed = p.place();
    let limits = placed.limits();
    Spot {
        point: placed.point,
        branches: limits.branches_for(p.branch.kind),
    }
}

// Which stresses are above 0.
pub fn loaded(loads: ByStress<Load>) -> ByStress<bool>
    ensures { result ≡ loaded loads }
{
    ByStress {
        axial: 0 < loads.axial.num,
        ring: 0 < loads.ring.num,
        shear: 0 < loads.shear.num,
    }
}

// Where S lies for each stress that is wanted.
pub fn spots_for(s: ValidCylinder, wanted: ByStress<bool>) -> ByStress<Option<Spot>>
    ensures { SpotsWanted s.cylinder wanted result }
{
    // all guesses first: none waits for another
    let x = wanted.axial.then(|| prepare(Stress::Axial, s));
    let y = wanted.ring.then(|| prepare(Stress::Ring, s));
    let z = wanted.shear.then(|| prepare(Stress::Shear, s));
    ByStress {
        axial: x.map(spot_of),
        ring: y.map(spot_of),
        shear: z.map(spot_of),
    }
}

// The term of a stress above 0 from below, in millionths, up to 2,000,000.
#[tactic(auto, using(crate::proofs::Stresses::term_is))]
fn lowest(kind: Stress, s: ValidCylinder, load: Load, p: Spot) -> u64
    requires { SpotOf kind s.cylinder p }
    ensures { result ≡ low_of kind s.cylinder load.num load.den }
{
    let at = Sample {
        point: p.point,
        branches: p.branches,
        excess: excess(s.cylinder),
    };
    term::low(kind, at, s.cylinder.yield_stress, load)
}

// The term of a stress in millionths: 0 for a stress of 0, else less than 2 over its low bound.
#[tactic(auto, using(crate::proofs::Stresses::low_most, crate::proofs::Stresses::loaded), unfolding(cylinder::specs::Search::term_bounds))]
fn term_bounds(kind: Stress, s: ValidCylinder, load: Load, spot: Option<Spot>) -> Bounds
    requires { 0 < load.num → MatchOption spot ⊥ (SpotOf kind s.cylinder) }
    ensures value { as_pair result ≡ pair_of kind s.cylinder load }
    ensures few { (result.low ≤ 2000000) × (result.high ≤ 2000002) }
{
    match spot {
        Some(p) if 0 < load.num => {
            let low = lowest(kind, s, load, p);
            Bounds { low, high: low + 2 }
        }
        _ => Bounds { low: 0, high: 0 },
    }
}

impl Case {
    // The three terms together, in millionths.
    fn in_millionths(self) -> Bounds
        ensures value { as_pair result ≡ terms_of self.shell.cylinder self.loads }
        ensures few { (result.low ≤ 6000000) × (result.high ≤ 6000006) }
    {
        let s = self.shell;
        let a = term_bounds(Stress::Axial, s, self.loads.axial, self.spots.axial);
        let r = term_bounds(Stress::Ring, s, self.loads.ring, self.spots.ring);
        let h = term_bounds(Stress::Shear, s, self.loads.shear, self.spots.shear);
        Bounds {
            low: a.low + r.low + h.low,
            high: a.high + r.high + h.high,
        }
    }

    // L and U, with some millionths more on the high side.
    #[tactic(auto, unfolding(cylinder::specs::Search::sum_bounds))]
    pub fn sum(self, more: u64) -> Bounds
        requires { more ≤ 95 }
        ensures { as_pair result ≡ sum_of more self.shell.cylinder self.loads }
    {
        let t = self.in_millionths();
        Bounds {
            low: (t.low / 100).min(20000),
            high: (t.high + more).div_ceil(100).min(20000),
        }
    }
}

// L and U of a cylinder under three stresses, with some millionths more on the high side. Its one caller adds none; `more`
// stays, since PROMISES 23.4 has the equation with `sum_bounds` as it was.
pub fn of_sum(s: ValidCylinder, loads: ByStress<Load>, more: u64) -> Bounds
    requires { more ≤ 95 }
    ensures { as_pair result ≡ sum_of more s.cylinder loads }
{
    let case = Case {
        shell: s,
        spots: spots_for(s, loaded(loads)),
        loads,
    };
    case.sum(more)
}
