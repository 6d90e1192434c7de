// All pairs of Table I of the CIEDE2000 test data (source document 001), both ways round: our
// difference to four decimals beside the published one.
#![tactic(auto)]

ghost use Rattle.std.specs.Prelude.{◌≤◌, IfOk};

use fixed_point::{Reading, Weights};
use std::fmt::Display;
use std::{fmt, io};

// L, a and b of sample 1, then of sample 2, and the published difference in units of the fourth decimal.
const PAIRS: [([f32; 6], u64); 34] = [
    (
        [50.0000, 2.6772, -79.7751, 50.0000, 0.0000, -82.7485],
        20425,
    ),
    (
        [50.0000, 3.1571, -77.2803, 50.0000, 0.0000, -82.7485],
        28615,
    ),
    (
        [50.0000, 2.8361, -74.0200, 50.0000, 0.0000, -82.7485],
        34412,
    ),
    (
        [50.0000, -1.3802, -84.2814, 50.0000, 0.0000, -82.7485],
        10000,
    ),
    (
        [50.0000, -1.1848, -84.8006, 50.0000, 0.0000, -82.7485],
        10000,
    ),
    (
        [50.0000, -0.9009, -85.5211, 50.0000, 0.0000, -82.7485],
        10000,
    ),
    ([50.0000, 0.0000, 0.0000, 50.0000, -1.0000, 2.0000], 23669),
    ([50.0000, -1.0000, 2.0000, 50.0000, 0.0000, 0.0000], 23669),
    ([50.0000, 2.4900, -0.0010, 50.0000, -2.4900, 0.0009], 71792),
    ([50.0000, 2.4900, -0.0010, 50.0000, -2.4900, 0.0010], 71792),
    ([50.0000, 2.4900, -0.0010, 50.0000, -2.4900, 0.0011], 72195),
    ([50.0000, 2.4900, -0.0010, 50.0000, -2.4900, 0.0012], 72195),
    ([50.0000, -0.0010, 2.4900, 50.0000, 0.0009, -2.4900], 48045),
    ([50.0000, -0.0010, 2.4900, 50.0000, 0.0010, -2.4900], 48045),
    ([50.0000, -0.0010, 2.4900, 50.0000, 0.0011, -2.4900], 47461),
    ([50.0000, 2.5000, 0.0000, 50.0000, 0.0000, -2.5000], 43065),
    (
        [50.0000, 2.5000, 0.0000, 73.0000, 25.0000, -18.0000],
        271492,
    ),
    ([50.0000, 2.5000, 0.0000, 61.0000, -5.0000, 29.0000], 228977),
    (
        [50.0000, 2.5000, 0.0000, 56.0000, -27.0000, -3.0000],
        319030,
    ),
    ([50.0000, 2.5000, 0.0000, 58.0000, 24.0000, 15.0000], 194535),
    ([50.0000, 2.5000, 0.0000, 50.0000, 3.1736, 0.5854], 10000),
    ([50.0000, 2.5000, 0.0000, 50.0000, 3.2972, 0.0000], 10000),
    ([50.0000, 2.5000, 0.0000, 50.0000, 1.8634, 0.5757], 10000),
    ([50.0000, 2.5000, 0.0000, 50.0000, 3.2592, 0.3350], 10000),
    (
        [60.2574, -34.0099, 36.2677, 60.4626, -34.1751, 39.4387],
        12644,
    ),
    (
        [63.0109, -31.0961, -5.8663, 62.8187, -29.7946, -4.0864],
        12630,
    ),
    ([61.2901, 3.7196, -5.3901, 61.4292, 2.2480, -4.9620], 18731),
    (
        [35.0831, -44.1164, 3.7933, 35.0232, -40.0716, 1.5901],
        18645,
    ),
    (
        [22.7233, 20.0904, -46.6940, 23.0331, 14.9730, -42.5619],
        20373,
    ),
    (
        [36.4612, 47.8580, 18.3852, 36.2715, 50.5065, 21.2231],
        14146,
    ),
    ([90.8027, -2.0831, 1.4410, 91.1528, -1.6435, 0.0447], 14441),
    (
        [90.9257, -0.5406, -0.9208, 88.6381, -0.8985, -0.7239],
        15381,
    ),
    ([6.7747, -0.2908, -2.4247, 5.8714, -0.0985, -2.2286], 6377),
    ([2.0776, 0.0795, -1.1350, 0.9033, -0.0636, -0.5514], 9082),
];

// A number of units of the fourth decimal.
#[derive(Drop)]
struct Units(u64);

impl Display for Units {
    fn fmt<W: fmt::Write>(&self, f: &mut fmt::Formatter<W>) -> fmt::Result {
        write!(f, "{}.{:04}", self.0 / 10000, self.0 % 10000)
    }
}

// Millionths to the nearest unit of the fourth decimal.
fn rounded(millionths: u64) -> u64 {
    millionths / 100 + millionths % 100 / 50
}

// One line: the difference, the published one, and how far they are apart. Whether it is at most one unit.
fn line(rt: &impl Print, millionths: u64, published: u64) -> io::Result<bool> {
    let found = rounded(millionths);
    let off = found.abs_diff(published);
    print!(rt; "{} ", Units(found))?;
    print!(rt; "{} ", Units(published))?;
    println!(rt; "{off}")?;
    Ok(off <= 1)
}

// CIEDE2000 of two readings with all weights 1, in millionths; 0 where it is refused.
fn difference(s: Reading, t: Reading) -> u64 {
    let weights = Weights {
        l: 1.0,
        c: 1.0,
        h: 1.0,
    };
    measure::figures(s, t, weights).map_or(0, |row| row[22].unsigned_abs())
}

// Both directions of pair k: how many of the two are within one unit.
fn pair(rt: &impl Print, k: usize, values: [f32; 6], published: u64) -> io::Result<usize>
    ensures { IfOk result (λ within. within ≤ 2) }
{
    let [l1, a1, b1, l2, a2, b2] = values;
    let s = Reading {
        l: l1,
        a: a1,
        b: b1,
    };
    let t = Reading {
        l: l2,
        a: a2,
        b: b2,
    };
    print!(rt; "{k} there ")?;
    let there = line(rt, difference(s, t), published)?;
    print!(rt; "{k} back ")?;
    let back = line(rt, difference(t, s), published)?;
    Ok(usize::from(there) + usize::from(back))
}

fn main(rt: HostRuntime) -> io::Result<()> {
    let mut within: usize = 0;
    for (k, (values, published)) in PAIRS.iter().enumerate() {
        within += pair(&rt, k + 1, *values, *published)?;
    }
    println!(rt; "{within} of 68 within one unit of the fourth decimal")
}
