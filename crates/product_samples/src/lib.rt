// What a caller of the arithmetic writes, and what its proof costs: inequalities between products, decided exactly. Each sample
// stands by itself, its proof too, so no lemma is shared.
#![tactic(auto)]

ghost use Rattle.std.specs.Prelude.{◌≡◌, ◌+◌, ◌*◌, ◌^◌, ◌≤◌, leb, length};
ghost use Rattle.wide.specs.Number.{IsNumber};
ghost use Rattle.factors.specs.Product.{prod};

use wide::Number;

// 14 and 12 factors, with squares: (23 c e w p²)² w v at most (20,000 l y q²)² (200 r).
fn fourteen(c: u64, e: u64, w: u64, p: u64, v: u64, l: u64, y: u64, q: u64, r: u64) -> bool
    ensures { result ≡ leb ((23 * c * e * w * p ^ 2) ^ 2 * w * v) ((20000 * l * y * q ^ 2) ^ 2 * (200 * r)) }
{
    let f = [23, c, e, w, p, p, 23, c, e, w, p, p, w, v];
    let g = [20000, l, y, q, q, 20000, l, y, q, q, 200, r];
    factors::at_most(&f, &g)
}

// 25 and 22 factors, with fourth powers and a factor that is computed.
fn twenty_five(c: u64, e: u64, w: u64, p: u64, l: u64, y: u64, q: u64, r: u64) -> bool
    requires { (w ≤ 100000) × (e ≤ 300000) }
    ensures { result ≡ leb ((23 * c * e * w * p ^ 2) ^ 4 * (w + 3 * e)) ((20000 * l * y * q ^ 2) ^ 4 * (200 * r)) }
{
    let d = w + 3 * e;
    let f = [
        23, c, e, w, p, p, 23, c, e, w, p, p, 23, c, e, w, p, p, 23, c, e, w, p, p, d,
    ];
    let g = [
        20000, l, y, q, q, 20000, l, y, q, q, 20000, l, y, q, q, 20000, l, y, q, q, 200, r,
    ];
    factors::at_most(&f, &g)
}

// 40 factors on each side: fifth powers of eight numbers, in two orders.
fn forty(c: u64, e: u64, w: u64, p: u64, l: u64, y: u64, q: u64, r: u64) -> bool
    ensures { result ≡ leb ((c * e * w * p * l * y * q * r) ^ 5) ((r * q * y * l * p * w * e * c) ^ 5) }
{
    let f = [
        c, e, w, p, l, y, q, r, c, e, w, p, l, y, q, r, c, e, w, p, l, y, q, r, c, e, w, p, l, y,
        q, r, c, e, w, p, l, y, q, r,
    ];
    let g = [
        r, q, y, l, p, w, e, c, r, q, y, l, p, w, e, c, r, q, y, l, p, w, e, c, r, q, y, l, p, w,
        e, c, r, q, y, l, p, w, e, c,
    ];
    factors::at_most(&f, &g)
}

// A sum of products: e (44 w² l⁴ + c r⁶) p² at most y r² l⁴ q².
fn sums(c: u64, e: u64, w: u64, p: u64, l: u64, y: u64, q: u64, r: u64) -> bool
    ensures { result ≡ leb (e * (44 * w ^ 2 * l ^ 4 + c * r ^ 6) * p ^ 2) (y * r ^ 2 * l ^ 4 * q ^ 2) }
{
    let f = [e, 44, w, w, l, l, l, l, p, p];
    let g = [e, c, r, r, r, r, r, r, p, p];
    let h = [y, r, r, l, l, l, l, q, q];
    factors::sums_at_most(&f, &g, &h, &[0])
}

// The fifth power of a product of factors.
fn fifth(f: &[u64]) -> Number
    requires { length f.now ≤ 8 }
    ensures { IsNumber result (10 * length f.now + 5) (prod f.now ^ 5) }
{
    product::fifth_power(&factors::product_of(f))
}

// Fifth powers, and a factor on one side: (n y)⁵ b at most (m s)⁵.
fn fifths(n: u64, y: u64, b: u64, m: u64, s: u64) -> bool
    ensures { result ≡ leb ((n * y) ^ 5 * b) ((m * s) ^ 5) }
{
    let mut f = fifth(&[n, y]);
    product::times(&mut f, b);
    let g = fifth(&[m, s]);
    order::at_most(&f, &g)
}
