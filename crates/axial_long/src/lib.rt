// Axial stress, long, where Cx falls with the length: how the related slenderness S compares with a fraction p/q. The ideal
// stress is a difference with a root, so the two sides are compared by their squares. Nothing is rounded.
#![tactic(auto)]

ghost use Rattle.cylinder.specs.WholeIdeal.{axial_bent};
ghost use Rattle.cylinder.specs.Cut.{root_of};
ghost use Rattle.root_order.specs.Decision.{Decides};

use cylinder::ValidCylinder;
use std::cmp::Ordering;

// Axial stress, long, where Cx falls with the length: a - b against e √(w/(200 r)), with p² in a and e, and q² in b.
pub fn axial_bent_order(shell: ValidCylinder, p: u64, q: u64) -> Ordering
    ensures { Decides result (root_of 2 (axial_bent shell.cylinder)) p q }
{
    let s = shell.cylinder;
    let h = lengths::eta(s.edges);
    let r = s.radius;
    let f = [121, s.modulus, s.wall, p, p, r, 10 * h + 2];
    let mut a = factors::product_of(&f);
    let g = [400000, h, r, r, s.yield_stress, q, q];
    let b = factors::product_of(&g);
    if order::at_most(&b, &a) {
        sums::subtract(&mut a, &b);
        let k = [121, s.modulus, s.wall, p, p, 4, s.length];
        let e = factors::product_of(&k);
        root_order::compare_roots(&a, 200 * r, &e, s.wall)
    } else {
        Ordering::Less
    }
}
