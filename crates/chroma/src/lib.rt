// Chroma, the seventh-power ratio, and the primed coordinates and their chroma: steps 1 to 3.
// a and b are whole numbers of 10^-4, chroma, a' and b' of 10^-7, ratios of 10^-9.
#![tactic(auto)]

ghost use Rattle.std.specs.Prelude.{◌≡◌, ◌≤◌};
ghost use Rattle.signed.specs.Inner.{int, Within};
ghost use Rattle.chroma.specs.Chroma.{sum_of_squares, chroma_of, power_of, hypotenuse_of, ratio_of, primed_a, in_ten_millionths, primed_chroma};

use isqrt::isqrt;
use signed::{Int, divided, scaled};

// 1 in 10^-9.
const ONE: u64 = 1000000000;

// Its square.
const ONE_SQUARED: u64 = 1000000000000000000;

// A point of the plane of a and b with its chroma, all three in one unit.
#[derive(Clone, Copy)]
pub struct Coordinates {
    pub a: Int,
    pub b: Int,
    pub chroma: u64,
}

// The bounds are those of a' and b', so that it serves both chromas.
fn sum_of_squares(a: Int, b: Int) -> u64
    requires a_bound { a.n ≤ 1920000000 }
    requires b_bound { b.n ≤ 1280000000 }
    ensures { result ≡ sum_of_squares (int a) (int b) }
{
    a.n * a.n + b.n * b.n
}

// The chroma of a and b, each at most 128.
pub fn chroma(a: Int, b: Int) -> u64
    requires a_bound { a.n ≤ 1280000 }
    requires b_bound { b.n ≤ 1280000 }
    ensures { result ≡ chroma_of (int a) (int b) }
{
    isqrt(1000000 * sum_of_squares(a, b))
}

// x to the power 3.5, for an x of at most 1.
fn power(x: u64) -> u64
    requires { x ≤ 1000000000 }
    ensures { result ≡ power_of x }
{
    let root = isqrt(ONE * x);
    x * x / ONE * x / ONE * root / ONE
}

// The root of 1 + p².
fn hypotenuse(p: u64) -> u64
    requires { p ≤ 1000000000 }
    ensures { result ≡ hypotenuse_of p }
{
    isqrt(ONE_SQUARED + p * p)
}

// The seventh-power ratio of a chroma sum, C1 + C2 or C1' + C2'.
pub fn ratio(s: u64) -> u64
    requires { s ≤ 4700000000 }
    ensures { result ≡ ratio_of s }
{
    let x = 2 * s;
    if x <= ONE {
        let p = power(x);
        ONE * p / hypotenuse(p)
    } else {
        ONE_SQUARED / hypotenuse(power(ONE_SQUARED / x))
    }
}

// a' of a and of the ratio of the pair's chroma sum.
pub fn primed_a(a: Int, z: u64) -> Int
    requires a_bound { a.n ≤ 1280000 }
    requires z_bound { z ≤ 1000000000 }
    ensures { Within (primed_a (int a) z) 1920000000 result }
{
    divided(scaled(a, 3000000000 - z), 2000000)
}

// a or b in the unit of chroma; of b it is b'.
pub fn in_ten_millionths(x: Int) -> Int
    requires { x.n ≤ 1280000 }
    ensures { Within (in_ten_millionths (int x)) 1280000000 result }
{
    scaled(x, 1000)
}

// The chroma of a' and b'.
pub fn primed_chroma(a: Int, b: Int) -> u64
    requires a_bound { a.n ≤ 1920000000 }
    requires b_bound { b.n ≤ 1280000000 }
    ensures { result ≡ primed_chroma (int a) (int b) }
{
    isqrt(sum_of_squares(a, b))
}
