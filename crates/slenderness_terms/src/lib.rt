// Bounds of the products by which the related slenderness S of a cylinder is compared with the points of a grid. They are put
// together once for a stress, in words of 64 bits, and serve every point and both grids.
#![tactic(auto)]

ghost use Rattle.std.specs.Prelude.{◌≡◌, ◌*◌};
ghost use Rattle.interval.specs.Around.{Around};
ghost use Rattle.slenderness_terms.specs.TermsFor.{TwoTerms, ThreeTerms, axial_short_x, axial_short_y, bent_c, bent_d, bent_e, ring_short_x, ring_short_y, ring_long_x, ring_long_y, shear_c, shear_d, shear_e, shear_long_x, shear_long_y, TermsFor};

use cylinder::{Cylinder, Stress, ValidCylinder};
use interval::Interval;
use lengths::Branch;

// Bounds of the terms of a comparison: of the ideal stress c, and e where it has a part with √(w/(200 r)), and of the yield stress d.
#[derive(Clone, Copy)]
pub struct Terms {
    pub c: Interval,
    pub d: Interval,
    pub e: Interval,
}

// Bounds of a product of two words.
fn both(a: u64, b: u64) -> Interval
    ensures { Around result (a * b) }
{
    interval::times(interval::of(a), interval::of(b))
}

// Bounds of a product of three words.
fn three(a: u64, b: u64, c: u64) -> Interval
    ensures { Around result (a * b * c) }
{
    interval::times(both(a, b), interval::of(c))
}

// The terms of a comparison without a root. Where there is no e it is 0, of which nothing is known, and no Option: whoever reads e
// has the branch, which tells that there is one.
fn plain(c: Interval, d: Interval) -> Terms
    ensures { (result.c ≡ c) × (result.d ≡ d) }
{
    Terms {
        c,
        d,
        e: interval::of(0),
    }
}

// Axial stress, short.
fn axial_short(s: ValidCylinder) -> Terms
    ensures { TwoTerms (axial_short_x s.cylinder) (axial_short_y s.cylinder) result }
{
    let Cylinder {
        radius: r,
        wall: w,
        length: l,
        modulus: e,
        yield_stress: v,
        ..
    } = s.cylinder;
    let k = 121 * e * w;
    let m = 400 * l * l + 3 * r * w;
    let p = 16000000 * r * v;
    let n = l * l;
    plain(both(k, m), both(p, n))
}

// Axial stress, long, where Cx falls with the length.
fn axial_long(s: ValidCylinder) -> Terms
    ensures { ThreeTerms (bent_c s.cylinder) (bent_d s.cylinder) (bent_e s.cylinder) result }
{
    let Cylinder {
        radius: r,
        wall: w,
        length: l,
        modulus: x,
        yield_stress: v,
        edges,
        ..
    } = s.cylinder;
    let n = lengths::eta(edges);
    let k = 121 * x * w;
    let c = (10 * n + 2) * r * k;
    let d = 400000 * n * v * r * r;
    let e = 4 * l * k;
    Terms {
        c: interval::of(c),
        d: interval::of(d),
        e: interval::of(e),
    }
}

// Ring stress, short.
fn ring_short(s: ValidCylinder) -> Terms
    ensures { TwoTerms (ring_short_x s.cylinder) (ring_short_y s.cylinder) result }
{
    let Cylinder {
        radius: r,
        wall: w,
        length: l,
        modulus: e,
        yield_stress: v,
        edges,
        ..
    } = s.cylinder;
    let c = lengths::ring_edges(edges);
    let k = 23 * c * e * w;
    let p = 20000 * l * v;
    let m = k * w;
    let n = 200 * p;
    let o = p * r;
    plain(both(k, m), both(n, o))
}

// Ring stress, long.
fn ring_long(s: ValidCylinder) -> Terms
    ensures { TwoTerms (ring_long_x s.cylinder) (ring_long_y s.cylinder) result }
{
    let Cylinder {
        radius: r,
        wall: w,
        length: l,
        modulus: e,
        yield_stress: v,
        edges,
        ..
    } = s.cylinder;
    let c = lengths::ring_edges(edges);
    let m = l * l;
    let n = r * r * r;
    let f = 44 * e * w * w;
    let g = 50750 * e * c * c * c * c;
    let h = 6400000 * v * r * r;
    let x = interval::plus(three(f, m, m), three(g, n, n));
    plain(x, three(h, m, m))
}

// Shear, short.
fn shear_short(s: ValidCylinder) -> Terms
    ensures { ThreeTerms (shear_c s.cylinder) (shear_d s.cylinder) (shear_e s.cylinder) result }
{
    let Cylinder {
        radius: r,
        wall: w,
        length: l,
        modulus: e,
        yield_stress: v,
        ..
    } = s.cylinder;
    let a = 1134 * e * e * r;
    let b = w * w * w * w;
    let f = 25600000000 * r;
    let g = l * l * v * v;
    let h = l * l;
    let i = 1080000 * e * e;
    let j = l * l * l;
    let k = w * w;
    Terms {
        c: both(a, b),
        d: three(f, g, h),
        e: three(i, j, k),
    }
}

// Shear, long.
fn shear_long(s: ValidCylinder) -> Terms
    ensures { TwoTerms (shear_long_x s.cylinder) (shear_long_y s.cylinder) result }
{
    let Cylinder {
        radius: r,
        wall: w,
        modulus: e,
        yield_stress: v,
        ..
    } = s.cylinder;
    let a = 3 * e * e;
    let b = w * w * w;
    let f = 128000000 * v * v;
    let g = r * r * r;
    plain(both(a, b), both(f, g))
}

// The terms for a branch. Six functions and a match: a trait would need six types.
pub fn terms_for(b: Branch) -> Terms
    ensures { TermsFor b.kind b.short b.shell.cylinder result }
{
    let s = b.shell;
    match (b.kind, b.short) {
        (Stress::Axial, true) => axial_short(s),
        (Stress::Axial, false) => axial_long(s),
        (Stress::Ring, true) => ring_short(s),
        (Stress::Ring, false) => ring_long(s),
        (Stress::Shear, true) => shear_short(s),
        (Stress::Shear, false) => shear_long(s),
    }
}
