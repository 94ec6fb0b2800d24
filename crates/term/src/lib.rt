// A term of the sum, from below: how many millionths the formula of DIN 18800-4 reaches at a slenderness k/q. The
// resistance is the yield stress times the reduction factor κ, times the tolerance for the imperfection, over the
// partial factor. Numerators and denominators are kept apart, as products of whole numbers, and compared exactly.
#![tactic(auto)]

ghost use Rattle.std.specs.Prelude.{◌≡◌, ◌*◌, ◌≤◌, ◌<◌, length};
ghost use Rattle.wide.specs.Value.{base};
ghost use Rattle.factors.specs.Product.{prod};
ghost use Rattle.cylinder.specs.WholeCurves.{reduction1, reduction2, tolerance_factor, safety};
ghost use Rattle.cylinder.specs.Search.{most};
ghost use Rattle.term.specs.TermOf.{SmallParts, part_of, factor1, reduced_of, factor_of, term_of, power_of};

use cylinder::Stress;
use millionths::Power;

// The branch of the reduction factor κ. κ1 has no cubic branch; its definition has the plateau there.
#[derive(Clone, Copy)]
pub enum Part {
    Plateau,
    Line,
    Cubic,
    Quadratic,
}

// The branches in which a slenderness lies. The partial factor has two flags, as its definition takes the two tests.
#[derive(Clone, Copy)]
pub struct Branches {
    // of the reduction factor
    pub part: Part,
    // of the tolerance: 1.5 or more
    pub long: bool,
    // of the partial factor for axial stress: up to 0.25
    pub near: bool,
    // and from 2 up
    pub far: bool,
}

// The slenderness k/q.
#[derive(Clone, Copy)]
pub struct Point {
    pub k: u64,
    pub q: u64,
    pub ghost small: { (k < base) × (q ≤ 200000000) },
}

// A stress of num/den kN/m².
#[derive(Clone, Copy)]
pub struct Load {
    pub num: u64,
    pub den: u64,
    pub ghost small: { SmallParts num den },
}

// Where a resistance is read off the curves: at a slenderness, in the branches where it lies, with the imperfection in
// thousandths over the permitted one.
#[derive(Clone, Copy)]
pub struct Sample {
    pub point: Point,
    pub branches: Branches,
    pub excess: u64,
    pub ghost tolerated: { excess ≤ 1000 },
}

// A ratio of products: what stands above the line, and what stands below it.
#[derive(Clone, Copy)]
pub struct Ratio<T> {
    pub above: T,
    pub below: T,
}

// κ1, for ring stress and shear: two factors above and two below.
fn kappa1(part: Part, p: Point) -> Ratio<(u64, u64)>
    ensures above { result.above.0 * result.above.1 ≡ (reduction1 (part_of part)).num p.k p.q }
    ensures below { result.below.0 * result.below.1 ≡ (reduction1 (part_of part)).den p.k p.q }
{
    let Point { k, q } = p;
    match part {
        Part::Plateau | Part::Cubic => Ratio {
            above: (1, 1),
            below: (1, 1),
        },
        Part::Line => Ratio {
            above: ((1274 * q).saturating_sub(686 * k), 1),
            below: (1000, q),
        },
        Part::Quadratic => Ratio {
            above: (65 * q, q),
            below: (100 * k, k),
        },
    }
}

// κ2, for axial stress.
#[tactic(auto, using(crate::proofs::Products::cube))]
fn kappa2(part: Part, p: Point) -> Ratio<(u64, u64)>
    ensures above { result.above.0 * result.above.1 ≡ (reduction2 (part_of part)).num p.k p.q }
    ensures below { result.below.0 * result.below.1 ≡ (reduction2 (part_of part)).den p.k p.q }
{
    let Point { k, q } = p;
    match part {
        Part::Plateau => Ratio {
            above: (1, 1),
            below: (1, 1),
        },
        Part::Line => Ratio {
            above: ((1233 * q).saturating_sub(933 * k), 1),
            below: (1000, q),
        },
        Part::Cubic => Ratio {
            above: (30 * q, q * q),
            below: (100 * k, k * k),
        },
        Part::Quadratic => Ratio {
            above: (20 * q, q),
            below: (100 * k, k),
        },
    }
}

// The tolerance at an excess of e thousandths over the permitted imperfection.
fn tolerance(long: bool, e: u64, p: Point) -> Ratio<u64>
    requires { e ≤ 1000 }
    ensures above { result.above ≡ (tolerance_factor long e).num p.k p.q }
    ensures below { result.below ≡ (tolerance_factor long e).den p.k p.q }
{
    if long {
        Ratio {
            above: 2000 - e,
            below: 2000,
        }
    } else {
        Ratio {
            above: (3000 * p.q).saturating_sub(e * p.k),
            below: 3000 * p.q,
        }
    }
}

// 11/10 over the partial factor for axial stress.
fn safety(near: bool, far: bool, p: Point) -> Ratio<u64>
    ensures above { result.above ≡ (safety near far).num p.k p.q }
    ensures below { result.below ≡ (safety near far).den p.k p.q }
{
    if near {
        Ratio { above: 1, below: 1 }
    } else if far {
        Ratio {
            above: 22,
            below: 29,
        }
    } else {
        Ratio {
            above: 7000 * p.q,
            below: 6682 * p.q + 1272 * p.k,
        }
    }
}

// The factors of a reduction factor with its tolerance.
fn tolerated(r: Ratio<(u64, u64)>, at: Sample) -> Ratio<[u64; 3]>
    ensures above { prod result.above ≡ r.above.0 * r.above.1 * (tolerance_factor at.branches.long at.excess).num at.point.k at.point.q }
    ensures below { prod result.below ≡ r.below.0 * r.below.1 * (tolerance_factor at.branches.long at.excess).den at.point.k at.point.q }
{
    let t = tolerance(at.branches.long, at.excess, at.point);
    Ratio {
        above: [r.above.0, r.above.1, t.above],
        below: [r.below.0, r.below.1, t.below],
    }
}

// The factors of the resistance to ring stress and shear.
fn by_kappa1(at: Sample) -> Ratio<[u64; 3]>
    ensures above { prod result.above ≡ (factor1 at.branches at.excess).num at.point.k at.point.q }
    ensures below { prod result.below ≡ (factor1 at.branches at.excess).den at.point.k at.point.q }
{
    tolerated(kappa1(at.branches.part, at.point), at)
}

// The factors of κ2 with its tolerance.
pub fn reduced(at: Sample) -> Ratio<[u64; 3]>
    ensures above { prod result.above ≡ (reduced_of at.branches at.excess).num at.point.k at.point.q }
    ensures below { prod result.below ≡ (reduced_of at.branches at.excess).den at.point.k at.point.q }
{
    tolerated(kappa2(at.branches.part, at.point), at)
}

// x and y before the factors of f.
pub fn with(x: u64, y: u64, f: [u64; 3]) -> [u64; 5]
    ensures { (prod result ≡ x * y * prod f) × (length result ≡ 5) }
{
    [x, y, f[0], f[1], f[2]]
}

// The factors of the resistance to a stress, with x above and y below.
fn resistance(stress: Stress, at: Sample, x: u64, y: u64) -> Ratio<[u64; 5]>
    ensures above { prod result.above ≡ x * (factor_of stress at.branches at.excess).num at.point.k at.point.q }
    ensures below { prod result.below ≡ y * (factor_of stress at.branches at.excess).den at.point.k at.point.q }
{
    match stress {
        Stress::Axial => {
            let r = reduced(at);
            let s = safety(at.branches.near, at.branches.far, at.point);
            Ratio {
                above: with(x, s.above, r.above),
                below: with(y, s.below, r.below),
            }
        }
        Stress::Ring | Stress::Shear => {
            let r = by_kappa1(at);
            Ratio {
                above: with(x, 1, r.above),
                below: with(y, 1, r.below),
            }
        }
    }
}

// The power of a fraction that the term of a stress is.
fn power_for(stress: Stress) -> Power
    ensures { result ≡ power_of stress }
{
    match stress {
        Stress::Axial | Stress::Ring => Power::FiveQuarters,
        Stress::Shear => Power::ThreeSquares,
    }
}

// The low bound of a stress's term, the yield stress fy in N/mm²: how many millionths it reaches, up to 2,000,000.
pub fn low(stress: Stress, at: Sample, fy: u64, load: Load) -> u64
    requires { fy ≤ 700 }
    ensures { result ≡ most (term_of stress at.branches fy load.num load.den at.excess) at.point.k at.point.q }
{
    let r = resistance(stress, at, 10000 * fy * load.den, 11 * load.num);
    millionths::reached(power_for(stress), &r.above, &r.below)
}
