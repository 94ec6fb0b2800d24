// Bounds of 64 bits that enclose a product of many factors: factors are put together in words as long as they fit, and the
// bounds of the words multiplied.
#![tactic(auto)]

ghost use Rattle.std.specs.Prelude.{ℕ, ◌*◌};
ghost use Rattle.factors.specs.Product.{prod};
ghost use Rattle.interval.specs.Around.{Around};
ghost use Rattle.interval_product.specs.Bounds.{BoundsOf};

use interval::Interval;

// Bounds of a number times w; the number is 1 where there are no bounds of it yet.
fn joined(n: Option<Interval>, w: u64) -> Interval
    ensures { (m : ℕ) → BoundsOf n m → Around result (m * w) }
{
    match n {
        Some(a) => interval::times(a, interval::of(w)),
        None => interval::of(w),
    }
}

// Bounds of x times the product of the factors of f, x being 1 where nothing stands before them. Factors are put together as long as they fit.
// The exact number is `factor_product::product_of`: why there is no trait is said at `roots::reaches`.
pub fn bounds_of(x: u64, f: &[u64]) -> Interval
    ensures { Around result (x * prod f.now) }
{
    let mut n = None;
    let mut w = x;
    for y in f {
        match w.checked_mul(*y) {
            Some(product) => w = product,
            None => {
                n = Some(joined(n, w));
                w = *y;
            }
        }
    }
    joined(n, w)
}
