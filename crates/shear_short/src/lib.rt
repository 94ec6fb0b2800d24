// Shear, short: how the related slenderness S compares with a fraction p/q. The ideal stress is a sum with a root, so the two
// sides are compared by their squares. Nothing is rounded.
#![tactic(auto)]

ghost use Rattle.cylinder.specs.WholeIdeal.{shear_short_cut};
ghost use Rattle.root_order.specs.Decision.{Decides};

use cylinder::ValidCylinder;
use std::cmp::Ordering;

// Shear, short: t √(w/(200 r)) against d, a difference, with p⁴ in t and in what is taken off d, and q⁴ in the rest of d.
pub fn shear_short_order(shell: ValidCylinder, p: u64, q: u64) -> Ordering
    ensures { Decides result (shear_short_cut shell.cylinder) p q }
{
    let s = shell.cylinder;
    let e = s.modulus;
    let w = s.wall;
    let r = s.radius;
    let l = s.length;
    let y = s.yield_stress;
    let f = [25600000000, r, l, l, l, l, y, y, q, q, q, q];
    let mut d = factors::product_of(&f);
    let g = [1134, e, e, w, w, w, w, r, p, p, p, p];
    sums::subtract(&mut d, &factors::product_of(&g));
    let k = [1080000, e, e, w, w, l, l, l, p, p, p, p];
    let t = factors::product_of(&k);
    root_order::compare_roots(&t, w, &d, 200 * r)
}
