// The edges' factors of tables 1 and 2, and the length tests: whether a cylinder is short for a stress, decided exactly.
#![tactic(auto)]

ghost use Rattle.std.specs.Prelude.{◌≡◌, leb, ◌*◌, ◌^◌, ◌≤◌};
ghost use Rattle.cylinder.specs.WholeIdeal.{eta as eta_of, ring_edges, ring_is_short};
ghost use Rattle.lengths.specs.Short.{short_of};

use cylinder::{Stress, ValidCylinder};

// A stress of a shell, on the short branch of its ideal stress or on the long one. That the length test finds the branch is no
// field of it: `ideal` and the grid promise their answers for either branch, and with that field would promise them for one.
#[derive(Clone, Copy)]
pub struct Branch {
    pub kind: Stress,
    pub short: bool,
    pub shell: ValidCylinder,
}

// η of table 1.
pub fn eta(edges: u64) -> u64
    ensures { (result ≡ eta_of edges) × (result ≤ 6) }
{
    match edges {
        11 => 6,
        12 => 3,
        _ => 1,
    }
}

// Four times Cφ of table 2.
pub fn ring_edges(edges: u64) -> u64
    ensures { (result ≡ ring_edges edges) × (4 ≤ result) × (result ≤ 6) }
{
    match edges {
        11 => 6,
        12 => 5,
        _ => 4,
    }
}

// Whether l² w is at most k r³: the length test for axial stress, and that for shear.
fn is_up_to(s: ValidCylinder, k: u64) -> bool
    requires { k ≤ 20000 }
    ensures { result ≡ leb (s.cylinder.length ^ 2 * s.cylinder.wall) (k * s.cylinder.radius ^ 3) }
{
    let l = s.cylinder.length;
    let r = s.cylinder.radius;
    l * l * s.cylinder.wall <= k * r * r * r
}

// Whether the shell is short for ring stress. For a radius from 11,500 on it always is, and that is asked apart: for a large one the
// right side below does not fit in 64 bits.
fn ring_short(s: ValidCylinder) -> bool
    ensures { result ≡ ring_is_short s.cylinder }
{
    let l = s.cylinder.length;
    let r = s.cylinder.radius;
    if 11500 <= r {
        return true;
    }
    let c = ring_edges(s.cylinder.edges);
    800 * l * l * s.cylinder.wall <= 26569 * c * c * r * r * r
}

// Whether the shell is short for a stress: the length test by itself. The crates above ask for the branch that it finds.
pub fn is_short(kind: Stress, s: ValidCylinder) -> bool
    ensures { result ≡ short_of kind s.cylinder }
{
    match kind {
        Stress::Axial => is_up_to(s, 50),
        Stress::Ring => ring_short(s),
        Stress::Shear => is_up_to(s, 15138),
    }
}

// The branch that the length test finds.
pub fn branch_of(kind: Stress, s: ValidCylinder) -> Branch
    ensures { (result.kind ≡ kind) × (result.short ≡ short_of kind s.cylinder) × (result.shell ≡ s) }
{
    Branch {
        kind,
        short: is_short(kind, s),
        shell: s,
    }
}
