// How many millionths a power of a fraction reaches, the fraction given by factors above and below: by bounds, where these
// settle it, else by exact comparisons.
#![tactic(auto)]

ghost use Rattle.std.specs.Prelude.{◌≡◌, ℕ, ◌≤◌, ◌^◌, IfSome};
ghost use Rattle.wide.specs.Number.{number};
ghost use Rattle.factors.specs.Product.{prod};
ghost use Rattle.interval.specs.Around.{Around};
ghost use Rattle.millionths.specs.Reached.{reached_by};

use factors::product_of;
use guess::Degree;
use interval::Interval;
use interval_product::bounds_of;
use interval_root::found;
use wide::Number;

// The power of a fraction y/x that a term is: (y/x)^(5/4) for axial and ring stress, 3 (y/x)² for shear.
#[derive(Clone, Copy)]
pub enum Power {
    FiveQuarters,
    ThreeSquares,
}

// Bounds of a fifth power; `product::fifth_power` is that of a Number: see `roots::reaches`.
fn fifth(x: Interval) -> Interval
    ensures { (n : ℕ) → Around x n → Around result (n ^ 5) }
{
    let s = interval::times(x, x);
    interval::times(interval::times(s, s), x)
}

// How many millionths the power of y/x reaches, up to 2,000,000, if bounds of x and y settle it.
fn settled(power: Power, x: Interval, y: Interval) -> Option<u64>
    ensures { IfSome result (λ r. (n m : ℕ) → Around x n → Around y m → r ≡ reached_by power n m) }
{
    match power {
        Power::FiveQuarters => {
            let t = interval::of(1000000000000);
            let y5 = interval::times(fifth(y), interval::times(t, t));
            let x5 = fifth(x);
            found(x5, y5, Degree::Four, 2000000)
        }
        Power::ThreeSquares => {
            let y2 = interval::times(interval::times(y, y), interval::of(3000000));
            let x2 = interval::times(x, x);
            found(x2, y2, Degree::One, 2000000)
        }
    }
}

// How many millionths the power of y/x reaches, up to 2,000,000. In the shape of `settled`, and no one function with it: why a
// Number and an Interval have no trait is said at `roots::reaches`.
fn exact(power: Power, x: &Number, y: &Number) -> u64
    requires { (x.now.used ≤ 11) × (y.now.used ≤ 11) }
    ensures { result ≡ reached_by power (number x.now) (number y.now) }
{
    match power {
        Power::FiveQuarters => {
            let x5 = product::fifth_power(x);
            let mut y5 = product::fifth_power(y);
            product::times(&mut y5, 1000000000000);
            product::times(&mut y5, 1000000000000);
            roots::root(&x5, &y5, Degree::Four, 2000000)
        }
        Power::ThreeSquares => {
            let x2 = product::square(x);
            let mut y2 = product::square(y);
            product::times(&mut y2, 3000000);
            roots::root(&x2, &y2, Degree::One, 2000000)
        }
    }
}

// How many millionths the power of y/x reaches, up to 2,000,000, with x and y as products of five factors. They stay
// two: each is put together and raised by itself. `term` has a Ratio, a crate above this one.
pub fn reached(power: Power, x: &[u64; 5], y: &[u64; 5]) -> u64
    ensures { result ≡ reached_by power (prod x.now) (prod y.now) }
{
    let found = settled(power, bounds_of(1, x), bounds_of(1, y));
    found.unwrap_or_else(|| exact(power, &product_of(x), &product_of(y)))
}
