// The ring stress of wind on the wall, raised to a whole number of kN/m². A fourth root in whole eights leaves at most two
// numbers, and an exact comparison decides between them. The cylinder and the gust pressure stay two: three private functions
// take both, which is no plainer with a struct that is built for them and taken apart in each.
#![tactic(auto)]

ghost use Rattle.std.specs.Prelude.{◌≡◌, ◌*◌, ◌≤◌, length};
ghost use Rattle.std.specs.Int.{from_bool};
ghost use Rattle.factors.specs.Product.{prod};
ghost use Rattle.roots.specs.Largest.{largest};
ghost use Rattle.wind.specs.Wind.{wind_stress};
ghost use Rattle.wind.specs.WholeWind.{above, below, root_within};

use cylinder::{Cylinder, ValidCylinder};
use guess::Degree;

// The fourth power of the root is a fraction: the factors of its numerator.
fn above(s: Cylinder, gust: u64) -> [u64; 14]
    ensures { (prod result ≡ above s gust) × (length result ≡ 14) }
{
    let c = lengths::ring_edges(s.edges);
    let r = s.radius;
    [279841, c, c, r, r, r, r, r, r, r, gust, gust, gust, gust]
}

// An eighth of the root, rounded down: 4096 is 8⁴.
fn root_part(s: Cylinder, gust: u64) -> u64
    ensures { (result ≡ largest 4 4294967295 (4096 * below s) (above s gust)) × (result ≤ 4294967295) }
{
    let l = s.length;
    let f = [3276800, l, l, s.wall];
    let h = above(s, gust);
    root_search::root(&f, &h, Degree::Four, 4294967295)
}

// Whether the root is at most d, exactly.
fn root_at_most(s: Cylinder, gust: u64, d: u64) -> bool
    ensures { result ≡ root_within s gust d }
{
    let l = s.length;
    let f = above(s, gust);
    let g = [800, l, l, s.wall, d, d, d, d];
    factors::at_most(&f, &g)
}

// The ring stress in kN/m² of a gust pressure of w N/m² on a shell that is closed, or open or vented. r/t is 200 r over the wall, so
// with v = 1 where it is vented, else 0, the stress is by the cap of δ (5 + 3 v) r w over 25 walls, and else (23 + 30 v) r w
// and the root, over 250 walls.
pub fn ring_stress(shell: ValidCylinder, gust: u64, vented: bool) -> u64
    requires { gust ≤ 10000 }
    ensures value { result ≡ wind_stress shell.cylinder gust (from_bool vented) }
    ensures upper_bound { result ≤ 40000 }
{
    let s = shell.cylinder;
    let v = u64::from(vented);
    let load = s.radius * gust;
    let top = ((5 + 3 * v) * load).div_ceil(25 * s.wall);
    let per = 250 * s.wall;
    let rootless = (23 + 30 * v) * load;
    let root = 8 * root_part(s, gust);
    let lo = (rootless + root).div_ceil(per);
    if top <= lo {
        return top;
    }
    let hi = (rootless + root + 8).div_ceil(per);
    if lo == hi || root_at_most(s, gust, lo * per - rootless) {
        lo
    } else {
        hi
    }
}
