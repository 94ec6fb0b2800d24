// The largest point of a grid that the related slenderness S of a cylinder reaches: by bounds, where these settle it, else by
// exact comparisons. Five of the lists of factors, those of the yield stress, stand in `ideal` too, with p's q for the grid's: a
// function for each would be as long as the list, with a contract, a proof and two edits besides. A branch has its own function: a
// trait in place of the matches would need six types.
#![tactic(auto)]

ghost use Rattle.std.specs.Prelude.{◌≡◌, ℕ, ◌*◌, ◌^◌, ◌<◌};
ghost use Rattle.wide.specs.Value.{base};
ghost use Rattle.interval.specs.declared.Interval.{Interval};
ghost use Rattle.interval.specs.Around.{Around, Lies};
ghost use Rattle.cylinder.specs.WholeIdeal.{axial_short_cut, axial_bent, axial_floor, axial_long_cut, ring_short_cut, ring_long_cut, shear_short_cut, shear_long_cut};
ghost use Rattle.cylinder.specs.Cut.{root_of};
ghost use Rattle.ideal.specs.Decision.{cut_at};
ghost use Rattle.slenderness_grid.specs.Highest.{Highest};
ghost use Rattle.roots.specs.Degree.{degree};
ghost use Rattle.roots.specs.Largest.{largest};
ghost use Rattle.slenderness_terms.specs.TermsFor.{TwoTerms, ThreeTerms, axial_short_x, axial_short_y, bent_c, bent_d, bent_e, ring_short_x, ring_short_y, ring_long_x, ring_long_y, shear_c, shear_d, shear_e, shear_long_x, shear_long_y, TermsFor};
ghost use Rattle.slenderness_grid.specs.TermsOf.{Sheared, Bent};
ghost use Rattle.slenderness_grid.specs.Guessed.{lifted_of, RoughRoot, PlainGuess, CurvedGuess, GuessFor};

use cylinder::{Cylinder, Stress, ValidCylinder};
use guess::Degree;
use interval::Interval;
use interval_root::guess_of;
use lengths::Branch;
use slenderness_terms::Terms;
use std::cmp::Ordering;

// How many points the finer of the two grids of S has to a unit; its guesses are in these points.
pub const FINE: u64 = 200000000;

// Where S is looked for: among the points k/q of a grid, for k up to the cap, and near a guess first. The terms stay outside: they serve both grids.
// q and the cap are u64, as in `steps`.
#[derive(Clone, Copy)]
pub struct Grid {
    pub q: u64,
    pub cap: u64,
    pub near: u64,
    pub ghost small: { (0 < q) × (q < base) × (cap < base) },
}

// S where it is a root: the largest k up to the cap such that k² c or k⁴ c is at most q² d or q⁴ d, by bounds, where these
// settle it, else by exact comparisons.
fn root_highest<F: FnOnce() -> u64>(t: Terms, d: Degree, g: Grid, exact: F) -> u64
    requires { F.IsAlwaysCallable exact }
    ensures { (x y : ℕ) → TwoTerms x y t → ((k : ℕ) → F.post exact k → k ≡ largest (degree d) g.cap x (g.q ^ degree d * y)) → result ≡ largest (degree d) g.cap x (g.q ^ degree d * y) }
{
    let y = interval_root::raised(t.d, d, g.q);
    interval_root::settled(t.c, y, d, g.cap, g.near).unwrap_or_else(exact)
}

// Axial stress, short: the largest k up to the cap such that S reaches k/q.
fn axial_short_highest(s: Cylinder, t: Terms, g: Grid) -> u64
    requires { TwoTerms (axial_short_x s) (axial_short_y s) t }
    ensures { Highest (axial_short_cut s) g.q g.cap result }
{
    let Cylinder {
        radius: r,
        wall: w,
        length: l,
        modulus: e,
        yield_stress: v,
        ..
    } = s;
    let x = [48400, e, w, l, l];
    let y = [363, e, w, w, r];
    let z = [16000000, r, l, l, v, g.q, g.q];
    root_highest(
        t,
        Degree::Two,
        g,
        || root_search::exact_sum(&x, &y, &z, Degree::Two, g.cap),
    )
}

// Axial stress, long, where Cx is at its least.
fn axial_floor_highest(s: Cylinder, g: Grid) -> u64
    ensures { Highest (root_of 2 (axial_floor s)) g.q g.cap result }
{
    let x = [726, s.modulus, s.wall];
    let z = [400000, s.radius, s.yield_stress, g.q, g.q];
    root_search::root(&x, &z, Degree::Two, g.cap)
}

// Ring stress, short.
fn ring_short_highest(s: Cylinder, t: Terms, g: Grid) -> u64
    requires { TwoTerms (ring_short_x s) (ring_short_y s) t }
    ensures { Highest (ring_short_cut s) g.q g.cap result }
{
    let Cylinder {
        radius: r,
        wall: w,
        length: l,
        modulus: e,
        yield_stress: v,
        edges,
        ..
    } = s;
    let c = lengths::ring_edges(edges);
    let x = [529, c, c, e, e, w, w, w];
    let z = [80000000000, r, l, l, v, v, g.q, g.q, g.q, g.q];
    root_highest(
        t,
        Degree::Four,
        g,
        || root_search::exact(&x, &z, Degree::Four, g.cap),
    )
}

// Ring stress, long.
fn ring_long_highest(s: Cylinder, t: Terms, g: Grid) -> u64
    requires { TwoTerms (ring_long_x s) (ring_long_y s) t }
    ensures { Highest (ring_long_cut s) g.q g.cap result }
{
    let Cylinder {
        radius: r,
        wall: w,
        length: l,
        modulus: e,
        yield_stress: v,
        edges,
        ..
    } = s;
    let c = lengths::ring_edges(edges);
    let x = [44, e, w, w, l, l, l, l];
    let y = [50750, e, c, c, c, c, r, r, r, r, r, r];
    let z = [6400000, r, r, l, l, l, l, v, g.q, g.q];
    root_highest(
        t,
        Degree::Two,
        g,
        || root_search::exact_sum(&x, &y, &z, Degree::Two, g.cap),
    )
}

// Shear, long.
fn shear_long_highest(s: Cylinder, t: Terms, g: Grid) -> u64
    requires { TwoTerms (shear_long_x s) (shear_long_y s) t }
    ensures { Highest (shear_long_cut s) g.q g.cap result }
{
    let Cylinder {
        radius: r,
        wall: w,
        modulus: e,
        yield_stress: v,
        ..
    } = s;
    let x = [3, e, e, w, w, w];
    let z = [128000000, r, r, r, v, v, g.q, g.q, g.q, g.q];
    root_highest(
        t,
        Degree::Four,
        g,
        || root_search::exact(&x, &z, Degree::Four, g.cap),
    )
}

// Bounds of a² x. `root_order` has this and the next for exact numbers: why there is no trait is said at `roots::reaches`.
fn squared(a: Interval, x: u64) -> Interval
    ensures { (n : ℕ) → Around a n → Around result (n ^ 2 * x) }
{
    interval::times(interval::times(a, a), interval::of(x))
}

// How a √x compares with b √y, if bounds of a and b tell.
fn parted_roots(a: Interval, x: u64, b: Interval, y: u64) -> Option<Ordering>
    ensures { (n m : ℕ) → Around a n → Around b m → Lies result (n ^ 2 * x) (m ^ 2 * y) }
{
    interval::parted(squared(a, x), squared(b, y))
}

// Whether S reaches p/q for shear, short: e p⁴ √(w/(200 r)) is at most d q⁴ - c p⁴.
fn shear_reaches(s: ValidCylinder, p: u64, q: u64, t: Terms) -> bool
    requires { (p < base) × Sheared s.cylinder q t }
    ensures { result ≡ (shear_short_cut s.cylinder).reaches p q }
{
    let x = interval::of(p * p);
    let m = interval::times(x, x);
    let a = interval::times(t.e, m);
    let b = interval::minus(t.d, interval::times(t.c, m));
    parted_roots(a, s.cylinder.wall, b, 200 * s.cylinder.radius)
        .unwrap_or_else(|| shear_short::shear_short_order(s, p, q))
        .is_le()
}

// Whether S reaches p/q for axial stress, long: c p² - d q² is at most e p² √(w/(200 r)).
fn bent_reaches(s: ValidCylinder, p: u64, q: u64, t: Terms) -> bool
    requires { (p < base) × Bent s.cylinder q t }
    ensures { result ≡ (root_of 2 (axial_bent s.cylinder)).reaches p q }
{
    let m = interval::of(p * p);
    let a = interval::minus(interval::times(t.c, m), t.d);
    let b = interval::times(t.e, m);
    parted_roots(a, 200 * s.cylinder.radius, b, s.cylinder.wall)
        .unwrap_or_else(|| axial_long::axial_bent_order(s, p, q))
        .is_le()
}

// The same number times 2^32 where that fits, for a guess.
#[tactic(auto, unfolding(crate::specs::Guessed::lifted_of))]
fn lifted(n: Interval) -> Interval
    ensures { result ≡ lifted_of n }
{
    if 8192 < n.up {
        n
    } else {
        Interval { up: n.up + 32, ..n }
    }
}

// A number near √(w/(200 r)) · 2^32.
fn rough_root(s: ValidCylinder) -> u64
    ensures { RoughRoot s.cylinder result }
{
    let a = interval::of(200 * s.cylinder.radius);
    let b = interval::of(s.cylinder.wall);
    guess_of(a, lifted(lifted(b)), Degree::Two)
}

// The terms at the grid q.
fn scaled(t: Terms, d: Degree, q: u64) -> Terms
    requires { q < base }
    ensures { (x y z : ℕ) → ThreeTerms x y z t → ThreeTerms x (q ^ degree d * y) z result }
{
    Terms {
        d: interval_root::raised(t.d, d, q),
        ..t
    }
}

// Axial stress, long: the smaller of two numbers, so the second is looked for up to the first.
fn axial_long_highest(s: ValidCylinder, t: Terms, g: Grid) -> u64
    requires { ThreeTerms (bent_c s.cylinder) (bent_d s.cylinder) (bent_e s.cylinder) t }
    ensures { Highest (axial_long_cut s.cylinder) g.q g.cap result }
{
    let k = axial_floor_highest(s.cylinder, g);
    let u = scaled(t, Degree::Two, g.q);
    steps::largest(k, g.near, |p| bent_reaches(s, p, g.q, u))
}

// Shear, short.
fn shear_short_highest(s: ValidCylinder, t: Terms, g: Grid) -> u64
    requires { ThreeTerms (shear_c s.cylinder) (shear_d s.cylinder) (shear_e s.cylinder) t }
    ensures { Highest (shear_short_cut s.cylinder) g.q g.cap result }
{
    let u = scaled(t, Degree::Four, g.q);
    steps::largest(g.cap, g.near, |p| shear_reaches(s, p, g.q, u))
}

// A guess at S where it is a root, in points of the finer grid.
fn plain_guess(t: Terms, d: Degree) -> u64
    ensures { PlainGuess d t result }
{
    guess_of(t.c, interval_root::raised(t.d, d, FINE), d)
}

// A guess at S where e √(w/(200 r)) is joined to c, that is added to it or taken off: the root of d over that.
fn curved_guess<F: FnOnce(Interval, Interval) -> Interval>(
    s: ValidCylinder,
    t: Terms,
    d: Degree,
    join: F,
) -> u64
    requires { F.IsAlwaysCallable join }
    ensures { (joined : ℕ → ℕ → ℕ) → ((a b r : Interval) → F.post join a b r → (x y : ℕ) → Around a x → Around b y → Around r (joined x y)) → CurvedGuess joined d s.cylinder t result }
{
    let root = rough_root(s);
    let e = interval::times(t.e, interval::of(root));
    let x = join(lifted(t.c), e);
    let y = interval_root::raised(t.d, d, FINE);
    guess_of(x, lifted(y), d)
}

// A guess at S in points of the finer grid. It is promised of any terms: so branch and terms stay two, as a type of both that has
// them belong together would ask for that here too.
pub fn guess_for(b: Branch, t: Terms) -> u64
    ensures { GuessFor b.kind b.short b.shell.cylinder t result }
{
    let s = b.shell;
    match (b.kind, b.short) {
        (Stress::Axial, true) => plain_guess(t, Degree::Two),
        (Stress::Axial, false) => curved_guess(s, t, Degree::Two, interval::minus),
        (Stress::Ring, true) => plain_guess(t, Degree::Four),
        (Stress::Ring, false) => plain_guess(t, Degree::Two),
        (Stress::Shear, true) => curved_guess(s, t, Degree::Four, interval::plus),
        (Stress::Shear, false) => plain_guess(t, Degree::Four),
    }
}

// The largest k up to the cap such that S reaches k/q. It is asked at the guess first.
pub fn highest(b: Branch, t: Terms, g: Grid) -> u64
    requires { TermsFor b.kind b.short b.shell.cylinder t }
    ensures { Highest (cut_at b) g.q g.cap result }
{
    let s = b.shell;
    match (b.kind, b.short) {
        (Stress::Axial, true) => axial_short_highest(s.cylinder, t, g),
        (Stress::Axial, false) => axial_long_highest(s, t, g),
        (Stress::Ring, true) => ring_short_highest(s.cylinder, t, g),
        (Stress::Ring, false) => ring_long_highest(s.cylinder, t, g),
        (Stress::Shear, true) => shear_short_highest(s, t, g),
        (Stress::Shear, false) => shear_long_highest(s.cylinder, t, g),
    }
}
