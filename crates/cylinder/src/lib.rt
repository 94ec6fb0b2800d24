// An unstiffened circular cylinder of constant wall, as DIN 18800-4 needs it. Of code there are only the types: specs/ says
// what its buckling check is, and proofs/ what bounds of it are right.
#![tactic(auto)]

ghost use Rattle.cylinder.specs.InLimits.{InLimits};

// Whole numbers, by SCOPE 2, save for the wall.
#[derive(Clone, Copy)]
pub struct Cylinder {
    // radius of the middle surface, mm
    pub radius: u64,
    // thickness in 200ths of a mm, so that half of a hundredth is still whole
    pub wall: u64,
    // mm
    pub length: u64,
    // N/mm²
    pub modulus: u64,
    // N/mm²
    pub yield_stress: u64,
    // 11, 12 or 22: a digit for each edge, by element 403. A number and no enum: the sheet and the C interface give it so,
    // and the definitions to be believed read it
    pub edges: u64,
    // worst ratio of found to permitted imperfection, thousandths; below 1,000 counts as 1,000
    pub imperfection: u64,
}

// A cylinder within the limits of SCOPE 2.
#[derive(Clone, Copy)]
pub struct ValidCylinder {
    pub cylinder: Cylinder,
    pub ghost in_limits: { InLimits cylinder },
}

// The stresses that are checked: along the axis, around the shell, and shear.
#[derive(Clone, Copy)]
pub enum Stress {
    Axial,
    Ring,
    Shear,
}

// One of a kind for each stress. No map: with its contract it would be longer than what it saves in `bounds::loaded` and `bounds::spots_for`, which alone
// could use it.
#[derive(Clone, Copy, Default)]
pub struct ByStress<T> {
    pub axial: T,
    pub ring: T,
    pub shear: T,
}
