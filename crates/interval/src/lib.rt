// Whole numbers known by bounds: a number of 64 bits, how much more it may be, and a power of two. Where bounds settle a
// comparison, nothing has to be multiplied out. Bounds that say nothing are allowed everywhere, so no function has a
// condition: what does not fit comes out as nothing known.
#![tactic(auto)]

ghost use Rattle.std.specs.Prelude.{◌≡◌, true, ℕ, ◌+◌, ◌-◌, ◌*◌, ◌/◌, ◌^◌, ◌<◌, ◌≤◌, IfSome};
ghost use Rattle.interval.specs.Around.{top, Around, Lies};
ghost use Rattle.interval.specs.Levelled.{Fits, Levelled};

use std::cmp::Ordering;

// The widest gap to go on with: 2^32.
const WIDEST: u64 = 4294967296;

// Bounds of a number: times 2^4096 it is from low · 2^up to (low + gap) · 2^up. Nothing is known where low is 0.
// No Option: a low of 0 comes of the arithmetic itself, in `shifted` and `minus`, and each operation would have to look for it.
#[derive(Clone, Copy)]
pub struct Interval {
    pub low: u64,
    pub gap: u64,
    pub up: u64,
}

// Nothing known.
const UNKNOWN: Interval = Interval {
    low: 0,
    gap: 0,
    up: 0,
};

// Bounds of two numbers at one power: the first is from a to a + g, the second from b to b + h.
#[derive(Clone, Copy)]
struct Pair {
    a: u64,
    g: u64,
    b: u64,
    h: u64,
    up: u64,
}

// Bounds of a u64. 0 has 64 leading zeros, and is not shifted: nothing is known of it. No From: `Interval::from(p)` says no more
// than `interval::of(p)` beside `interval::times`, and its contract would go into a ghost function.
pub fn of(x: u64) -> Interval
    ensures { Around result x }
{
    let z = x.leading_zeros() % 64;
    Interval {
        low: x << z,
        gap: 0,
        up: 4096 - u64::from(z),
    }
}

// Whether the gap and the power are small enough to go on with.
fn fits(a: Interval) -> bool
    ensures { result ≡ true → Fits a }
{
    a.gap <= WIDEST && 2016 <= a.up && a.up <= 8192
}

// The upper half of a product.
fn head(a: u64, b: u64) -> u64
    ensures { (result * top ≤ a * b) × (a * b ≤ (result + 1) * top) }
{
    ((u128::from(a) * u128::from(b)) >> 64) as u64
}

// Bounds of a product.
pub fn times(a: Interval, b: Interval) -> Interval
    ensures { (x y : ℕ) → Around a x → Around b y → Around result (x * y) }
{
    if fits(a) && fits(b) {
        Interval {
            low: head(a.low, b.low),
            gap: a.gap + b.gap + 2,
            up: a.up + b.up - 4032,
        }
    } else {
        UNKNOWN
    }
}

// Whether something is known of both, and both fit.
fn both_fit(a: Interval, b: Interval) -> bool
    ensures { result ≡ true → (0 < a.low) × (0 < b.low) × (Fits a) × (Fits b) }
{
    0 < a.low && 0 < b.low && fits(a) && fits(b)
}

// A number without its last s digits.
// Not `checked_shr`: it takes a u32, which s would have to be shown to fit.
fn shifted(x: u64, s: u64) -> u64
    ensures { result ≡ x / 2 ^ s }
{
    if s < 64 { x >> s } else { 0 }
}

// Both at one more than the larger power, so that they can be added; nothing where one does not fit.
fn levelled(a: Interval, b: Interval) -> Option<Pair>
    ensures { IfSome result (Levelled a b) }
{
    if !both_fit(a, b) {
        return None;
    }
    let s = b.up.saturating_sub(a.up) + 1;
    let t = a.up.saturating_sub(b.up) + 1;
    Some(Pair {
        a: shifted(a.low, s),
        g: shifted(a.gap, s) + 2,
        b: shifted(b.low, t),
        h: shifted(b.gap, t) + 2,
        up: a.up + s,
    })
}

// Bounds of a sum.
pub fn plus(a: Interval, b: Interval) -> Interval
    ensures { (x y : ℕ) → Around a x → Around b y → Around result (x + y) }
{
    let Some(p) = levelled(a, b) else {
        return UNKNOWN;
    };
    Interval {
        low: p.a + p.b,
        gap: p.g + p.h,
        up: p.up,
    }
}

// Bounds of a difference; nothing known where it may be 0.
pub fn minus(a: Interval, b: Interval) -> Interval
    ensures { (x y : ℕ) → Around a x → Around b y → Around result (x - y) }
{
    let Some(p) = levelled(a, b) else {
        return UNKNOWN;
    };
    Interval {
        low: p.a.saturating_sub(p.b + p.h),
        gap: p.g + p.h,
        up: p.up,
    }
}

// Which of two numbers is seen to be the larger, if bounds tell; that two are equal, they never tell.
pub fn parted(a: Interval, b: Interval) -> Option<Ordering>
    ensures { (x y : ℕ) → Around a x → Around b y → Lies result x y }
{
    let p = levelled(a, b)?;
    if p.a + p.g < p.b {
        Some(Ordering::Less)
    } else if p.b + p.h < p.a {
        Some(Ordering::Greater)
    } else {
        None
    }
}
