// The hues of two samples against each other: which way round the hue circle, decided exactly, the hue difference H with its
// sign, and the mean hue. Steps 6, 7 and 8; sample 1 is (a1, b1), sample 2 is (a2, b2).
#![tactic(auto)]

ghost use Rattle.std.specs.Prelude.{◌≡◌, ◌≢◌, ◌+◌, ◌*◌, ◌^◌, ◌≤◌, ◌<◌};
ghost use Rattle.std.specs.declared.cmp.Ordering.TheVariants.{Equal};
ghost use Rattle.signed.specs.Inner.{int, Within};
ghost use Rattle.hue.specs.Inner.{number_of};
ghost use Rattle.hue_difference.specs.HueDifference.{cross_of, later_in, dot_of, hue_size, mean_hue_of};
ghost use Rattle.hue_difference.specs.Inner.{Primed, SideIs, sign_of, with_order};

use chroma::Coordinates;
use hue::{Opponents, Quadrant};
use signed::Int;
use std::cmp::Ordering;

// What a and b in 1/10,000 say exactly of two hues.
#[derive(Clone, Copy)]
pub struct Side {
    pub grey: bool, // a sample is
    pub far: bool, // more than half a turn apart
    pub sign: Ordering, // how H compares with 0
}

// The cross product X.
fn cross(a1: Int, b1: Int, a2: Int, b2: Int) -> Int
    requires { a1.n * b2.n + a2.n * b1.n < 2 ^ 64 }
    ensures { Within (cross_of (int a1) (int b1) (int a2) (int b2)) (a1.n * b2.n + a2.n * b1.n) result }
{
    signed::difference(signed::product(a1, b2), signed::product(a2, b1))
}

// The dot product d.
fn dot(a1: Int, b1: Int, a2: Int, b2: Int) -> Int
    requires { a1.n * a2.n + b1.n * b2.n < 2 ^ 64 }
    ensures { Within (dot_of (int a1) (int b1) (int a2) (int b2)) (a1.n * a2.n + b1.n * b2.n) result }
{
    signed::sum(signed::product(a1, a2), signed::product(b1, b2))
}

// Whether a hue in the quadrant q is later than one in the quadrant p; `ahead` says so within one quadrant.
fn later(p: Quadrant, q: Quadrant, ahead: bool) -> bool
    ensures { result ≡ later_in (number_of p) (number_of q) ahead }
{
    ((p as u64) < (q as u64)) | ((p == q) & ahead)
}

// How H compares with 0, of whether there is none and whether it is below 0.
fn sign(none: bool, negative: bool) -> Ordering
    ensures { result ≡ sign_of none negative }
{
    if none {
        return Ordering::Equal;
    }
    if negative {
        Ordering::Less
    } else {
        Ordering::Greater
    }
}

// The side of the hue circle. H has the sign of X, but of exactly opposite hues it is plus where sample 2 is later, else minus.
pub fn side_of(s: Opponents, t: Opponents) -> Side
    ensures { SideIs (int s.a) (int s.b) (int t.a) (int t.b) result }
{
    let x = cross(s.a, s.b, t.a, t.b);
    let positive = signed::is_positive(x);
    let negative = signed::is_negative(x);
    let zero = signed::is_zero(x);
    let second = later(s.quadrant, t.quadrant, positive);
    let first = later(t.quadrant, s.quadrant, negative);
    let grey = (s.quadrant == Quadrant::Grey) | (t.quadrant == Quadrant::Grey);
    let opposite = !grey & zero & (s.quadrant != t.quadrant);
    let none = grey | (zero & !opposite);
    let minus = signed::pick(opposite, !second, negative);
    Side {
        grey,
        far: (second & negative) | (first & positive),
        sign: sign(none, minus),
    }
}

// The size of H in 10^-7, of a', b' and C' in 10^-7. C1'C2' + d where d is not below 0, and C1'C2' - d where it is, are one sum.
fn hue_size(p: Coordinates, q: Coordinates) -> u64
    requires first_primed { Primed p.a.n p.b.n p.chroma }
    requires second_primed { Primed q.a.n q.b.n q.chroma }
    requires not_grey { (1000 ≤ p.chroma) × (1000 ≤ q.chroma) }
    ensures { result ≡ hue_size (int p.a) (int p.b) p.chroma (int q.a) (int q.b) q.chroma }
{
    let d = dot(p.a, p.b, q.a, q.b);
    let root = isqrt::isqrt((p.chroma * q.chroma + d.n) / 2);
    if signed::is_negative(d) {
        return 2 * root;
    }
    let x = cross(p.a, p.b, q.a, q.b);
    x.n / root
}

// The hue difference H in 10^-7: 0 where there is none, else the size with its sign.
pub fn hue_difference(sign: Ordering, p: Coordinates, q: Coordinates) -> Int
    requires first_primed { Primed p.a.n p.b.n p.chroma }
    requires second_primed { Primed q.a.n q.b.n q.chroma }
    requires not_grey { sign ≢ Equal → (1000 ≤ p.chroma) × (1000 ≤ q.chroma) }
    ensures { let size = hue_size (int p.a) (int p.b) p.chroma (int q.a) (int q.b) q.chroma in
        Within (with_order sign size) 4615105632 result }
{
    if sign == Ordering::Equal {
        return Int::from(0u64);
    }
    Int {
        neg: sign == Ordering::Less,
        n: hue_size(p, q),
    }
}

// The mean hue in 10^-6 degree.
pub fn mean_hue(side: Side, h1: u64, h2: u64) -> u64
    requires { (h1 < 360000000) × (h2 < 360000000) }
    ensures { result ≡ mean_hue_of side.grey side.far h1 h2 }
{
    let sum = h1 + h2;
    let half = sum / 2;
    if side.grey {
        return sum;
    }
    if side.far {
        if sum < sine::TURN {
            return (sum + sine::TURN) / 2;
        }
        return (sum - sine::TURN) / 2;
    }
    half
}
