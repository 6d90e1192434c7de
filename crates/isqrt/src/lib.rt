// The integer square root: the largest whole number whose square is at most n.
// An estimate from the count of leading zeros is tested exactly. Where it is not the root, the root
// is found bit by bit.
#![tactic(auto)]

ghost use Rattle.std.specs.Prelude.{◌≡◌, ◌+◌, ◌*◌, ◌^◌, ◌≤◌, ◌<◌, eqb};
ghost use Rattle.isqrt.specs.Root.{root_of};
ghost use Rattle.isqrt.specs.Inner.{RootBits};

use fraction::times;

// How many bits the root of n has: half as many as n, rounded up, and at least 1. For a number of at
// most 2k bits that is k + 1 at most.
fn root_bits(n: u64) -> u32
    ensures { RootBits n result }
{
    (65 - u64::leading_zeros(n | 1)) / 2
}

// start, rise and bend: the curve start + rise × t - bend × t², for t from 0 to 1.
#[derive(Clone, Copy)]
struct Parabola(u64, u64, u64);

// 2^24 × √((part + t) / 32), at most 4 millionths off, for parts from 8 to 31.
fn on_part(part: u64) -> Parabola
    ensures { (1 ≤ result.0) × (result.0 ≤ 2 ^ 24) × (result.2 ≤ result.1) × (result.1 < 2 ^ 20) }
{
    match part {
        8 => Parabola(8388637, 523771, 14972),
        9 => Parabola(8897484, 493914, 12669),
        10 => Parabola(9378766, 468635, 10902),
        11 => Parabola(9836528, 446874, 9510),
        12 => Parabola(10273915, 427885, 8392),
        13 => Parabola(10693428, 411125, 7476),
        14 => Parabola(11097093, 396191, 6716),
        15 => Parabola(11486581, 382773, 6077),
        16 => Parabola(11863289, 370631, 5533),
        17 => Parabola(12228397, 359576, 5065),
        18 => Parabola(12582916, 349453, 4660),
        19 => Parabola(12927717, 340140, 4306),
        20 => Parabola(13263557, 331533, 3995),
        21 => Parabola(13591101, 323548, 3719),
        22 => Parabola(13910935, 316113, 3474),
        23 => Parabola(14223579, 309169, 3255),
        24 => Parabola(14529497, 302662, 3057),
        25 => Parabola(14829106, 296550, 2879),
        26 => Parabola(15122780, 290793, 2718),
        27 => Parabola(15410858, 285360, 2571),
        28 => Parabola(15693650, 280219, 2437),
        29 => Parabola(15971435, 275347, 2314),
        30 => Parabola(16244471, 270721, 2201),
        31 => Parabola(16512992, 266320, 2097),
        _ => Parabola(1, 0, 0), // n is 0
    }
}

// Near the root of n, for n from 2^62 on. The highest 5 bits of n are its part, and the next 16 are t.
// The parabola is 4 × 10^-6 off at most, and a step of Newton's method from there 8 × 10^-12.
fn top_estimate(n: u64) -> u64 {
    let Parabola(start, rise, bend) = on_part(n >> 59);
    let t = (n >> 43) % 65536;
    let x = 256 * (start + times(rise - times(bend, t), t));
    (x + n / x) / 2
}

// The root of n, for a few numbers one more: n is moved up to the top of 64 bits, by an even count, and
// what is near its root back down by half of it. Nothing is promised: `isqrt` tests it, and
// tests/checks/roots.rs counts the misses. 0 is missed, for which the loop takes one round.
// The zeros are those of n itself and not of n | 1: for a number that cannot be 0 the compiled count
// would wait for the root before, and roots that could be worked out side by side would not be.
pub fn estimate(n: u64) -> u64 {
    let half = u64::leading_zeros(n) % 64 / 2;
    top_estimate(n << (2 * half)) >> half
}

// Whether r is the root of n: the next square is 2r + 1 further on.
fn is_root(n: u64, r: u64) -> bool
    ensures { result ≡ eqb r (root_of n) }
{
    // no root has more than 32 bits, and a larger square would not fit 64
    r <= 4294967295 && r * r <= n && n - r * r <= 2 * r
}

// The root, its bits from the highest down: a bit is in it where the square does not pass n with it.
// There are k + 1 rounds at most for a number of at most 2k bits.
fn by_bits(n: u64, bits: u32) -> u64
    requires { RootBits n bits }
    ensures { result ≡ root_of n }
{
    let mut root = 0u64;
    for left in (0..bits).rev() {
        let tried = root + (1u64 << left);
        if tried * tried <= n {
            root = tried;
        }
    }
    root
}

// The integer square root of n.
pub fn isqrt(n: u64) -> u64
    ensures is { result ≡ root_of n }
    ensures largest { (result * result ≤ n) × (n < (result + 1) * (result + 1)) }
{
    let r = estimate(n);
    if is_root(n, r) {
        return r;
    }
    by_bits(n, root_bits(n))
}
