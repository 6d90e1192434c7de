// Which swatches are too far from a reading in a and b to be within the tolerance. It is found without
// any root, hue or table, so that a search works few swatches in full.
#![tactic(auto)]

ghost use Rattle.std.specs.Prelude.{◌≡◌, ◌+◌, ◌≤◌};
ghost use Rattle.sample.specs.Inner.{lab_of, WeightIn, WeightsIn};
ghost use Rattle.near.specs.Inner.{extent, saturated, chroma_most, chromas_most, left_tolerance, parts_most, weight_most};
ghost use Rattle.near.specs.Inner.{radius_of, distance_square, beyond_radius, Worked, Most};

use sample::{FixedWeights, Lab};

// What depends on the query alone, so that a search works it out once.
#[derive(Clone, Copy)]
pub struct Neighbourhood {
    pub reading: Lab,
    pub tolerance: u64,
    // the weight of lightness, and the greater of those of chroma and hue
    pub kl: u64,
    pub k: u64,
    // the reading's extent, and the bound of its C' in any pair and in a saturated one
    pub extent: u64,
    pub most: u64,
    pub saturated: u64,
    pub ghost worked: { Worked (lab_of reading) tolerance kl k extent most saturated },
}

// The greater of |a| and |b|.
fn extent(s: Lab) -> u64
    ensures { Most (extent (lab_of s)) 1280000 result }
{
    signed::size(s.a).max(signed::size(s.b))
}

// A bound of C' that needs no root; f is half the factor by which a' can be longer than a.
fn chroma_most(f: u64, s: Lab) -> u64
    requires { f ≤ 750 }
    ensures { Most (chroma_most f (lab_of s)) 2560000000 result }
{
    let a = f * signed::size(s.a);
    let b = 500 * signed::size(s.b);
    (2 * a + b).max(a + 2 * b)
}

// What a difference d in lightness leaves of the tolerance for chroma and hue.
fn left_tolerance(tolerance: u64, kl: u64, d: u64) -> u64
    requires weight_in { WeightIn kl }
    requires bounds { (tolerance ≤ 1000000) × (d ≤ 2000000) }
    ensures { Most (left_tolerance tolerance kl d) 1000000 result }
{
    let whole = 5 * tolerance + 4;
    let spent = whole.min(3 * (40000 * d / (7 * kl)));
    tolerance.min((whole - spent) / 4)
}

// What the tolerance allows for the parts of chroma and hue together.
fn parts_most(tolerance: u64) -> u64
    requires { tolerance ≤ 1000000 }
    ensures { Most (parts_most tolerance) 275000006 result }
{
    275 * tolerance + 6
}

// A bound of SC and SH; n is one of C1' + C2'.
fn weight_most(n: u64) -> u64
    requires { n ≤ 5120000000 }
    ensures { Most (weight_most n) 12521 result }
{
    1001 + 9 * n / 4000000
}

// How far apart in a and b a pair within the tolerance can be.
fn radius(tolerance: u64, k: u64, n: u64) -> u64
    requires weight_in { WeightIn k }
    requires bounds { (tolerance ≤ 1000000) × (n ≤ 5120000000) }
    ensures { Most (radius_of tolerance k n) 400000000 result }
{
    let allowed = parts_most(tolerance) * k / 10000 + 1;
    allowed * weight_most(n) / 100000 + 119
}

// da² + db².
fn distance_square(s: Lab, t: Lab) -> u64
    ensures { result ≡ distance_square (lab_of s) (lab_of t) }
{
    let a = signed::size(signed::difference(t.a, s.a));
    let b = signed::size(signed::difference(t.b, s.b));
    a * a + b * b
}

impl Neighbourhood {
    ghost use Rattle.near.specs.InnerNeighbourhood.{IsNeighbourhood};

    // What depends on the weights, the tolerance and the reading.
    pub fn of(w: FixedWeights, tolerance: u64, reading: Lab) -> Self
        requires weights_in { WeightsIn w }
        requires tolerance_bound { tolerance ≤ 1000000 }
        ensures { IsNeighbourhood w tolerance (lab_of reading) result }
    {
        Neighbourhood {
            reading,
            tolerance,
            kl: w.l,
            k: w.c.max(w.h),
            extent: extent(reading),
            most: chroma_most(750, reading),
            saturated: chroma_most(574, reading),
        }
    }

    // Whether the two chromas come to more than 50.
    fn is_saturated(self, s: Lab) -> bool
        ensures { result ≡ saturated (lab_of s) (lab_of self.reading) }
    {
        500000 < extent(s) + self.extent
    }

    // A bound of C1' + C2'.
    fn chromas_most(self, s: Lab) -> u64
        ensures { Most (chromas_most (lab_of s) (lab_of self.reading)) 5120000000 result }
    {
        let saturated = self.is_saturated(s);
        let most = chroma_most(signed::pick(saturated, 574, 750), s);
        most + signed::pick(saturated, self.saturated, self.most)
    }

    // Whether a swatch is too far from the reading in a and b for a difference within the tolerance.
    pub fn beyond_radius(self, s: Lab) -> bool
        ensures { result ≡ beyond_radius self.kl self.k self.tolerance (lab_of s) (lab_of self.reading) }
    {
        let reading = self.reading;
        let d = reading.l.abs_diff(s.l);
        let left = left_tolerance(self.tolerance, self.kl, d);
        let r = radius(left, self.k, self.chromas_most(s));
        r * r < distance_square(s, reading)
    }
}
