// The hue of a point (a, b): its quadrant, the tenth of a degree found by halving from an estimate, and the rest.
// A hue is a whole number of 10^-6 degree.
#![tactic(auto)]

ghost use Rattle.std.specs.Prelude.{◌≡◌, true, ◌+◌, ◌*◌, ◌^◌, ◌≤◌, ◌<◌};
ghost use Rattle.signed.specs.Inner.{int};
ghost use Rattle.hue.specs.Inner.{number_of};
ghost use Rattle.hue.specs.Hue.{quadrant_of, largest, reaches, tenth_of, rest_of, angle_of, hue_of};

use chroma::Coordinates;
use fraction::times;
use signed::Int;

// The quadrant of a point, each with the axis that it begins at. A grey colour is in none.
#[derive(Clone, Copy, PartialEq, Eq)]
pub enum Quadrant {
    First,
    Second,
    Third,
    Fourth,
    Grey,
}

impl Quadrant {
    // The quadrant of (a, b): choices and no branches, since signs are as good as random.
    pub fn of(a: Int, b: Int) -> Self
        ensures { number_of result ≡ quadrant_of (int a) (int b) }
    {
        let below = signed::is_negative(b);
        let right = signed::pick(below, Self::Fourth, Self::First);
        let upright = signed::pick(below, Self::Fourth, Self::Grey); // a is 0, and b is not above 0
        let left = signed::pick(signed::is_negative(a), Self::Third, upright);
        let not_right = signed::pick(signed::is_positive(b), Self::Second, left);
        signed::pick(signed::is_positive(a), right, not_right)
    }
}

// The a and b of a sample, in 1/10,000, with their quadrant.
#[derive(Clone, Copy)]
pub struct Opponents {
    pub a: Int,
    pub b: Int,
    pub quadrant: Quadrant,
    pub ghost within: { (a.n ≤ 1280000) × (b.n ≤ 1280000) },
    pub ghost is: { number_of quadrant ≡ quadrant_of (int a) (int b) },
}

impl Opponents {
    pub fn of(a: Int, b: Int) -> Self
        requires { (a.n ≤ 1280000) × (b.n ≤ 1280000) }
        ensures { (result.a ≡ a) × (result.b ≡ b) }
    {
        Opponents {
            a,
            b,
            quadrant: Quadrant::of(a, b),
        }
    }
}

// The ratio in 1/65,536. Its divisor is never 0.
fn ratio(smaller: u64, larger: u64) -> u64
    requires { (smaller ≤ larger) × (larger ≤ 2400000000) }
    ensures { result ≤ 65536 }
{
    1073741824 * smaller / (16384 * larger + 1)
}

// The arctangent of u in tenths of a degree, at most 0.36 off, for u from 0 to 1; both in 1/65,536.
fn arctangent(u: u64) -> u64
    requires { u ≤ 65536 }
    ensures { result ≤ 37375056 }
{
    let square = times(u, u);
    let inner = 10840134 - times(2979130, square);
    times(37375056 - times(inner, square), u)
}

// A point that is not grey, turned into the first quadrant.
#[derive(Clone, Copy)]
struct Turned {
    x: u64,
    y: u64,
    chroma: u64,
    ghost within: { (x ≤ chroma) × (y ≤ chroma) },
    ghost coloured: { (0 < chroma) × (chroma ≤ 2400000000) },
}

impl Turned {
    // Whether y cos k - x sin k is at least 0, for k tenths of a degree.
    fn reached(self, k: usize) -> bool
        requires { k ≤ 900 }
        ensures { result ≡ reaches self.x self.y k }
    {
        self.x * sine::entry(k) <= self.y * sine::entry(900 - k)
    }

    // The largest tenth from low to low + width that is reached, where low is. By halving: the half that holds it is
    // searched the same way. Which half is a choice of its start alone, so no branch depends on it.
    fn tenth(self, low: usize, width: usize) -> usize
        requires width_bound { low + width ≤ 899 }
        requires low_reached { reaches self.x self.y low ≡ true }
        ensures { result ≡ largest (reaches self.x self.y) (low + width) }
    {
        if width == 0 {
            return low;
        }
        let mid = low + (width - width / 2);
        let next = if self.reached(mid) { mid } else { low };
        self.tenth(next, width / 2)
    }

    // The tenth nearest to the hue, or one next to it. Nothing is promised but its range: `tenth_of`
    // tests it, and tests/checks/tables.rs the arctangent.
    fn estimate(self) -> usize
        ensures { (1 ≤ result) × (result ≤ 899) }
    {
        let x = self.x;
        let y = self.y;
        let angle = arctangent(ratio(x.min(y), x.max(y)));
        // half a tenth from the axis at least, so that the nearest tenth is from 1 to 899
        let from_axis = angle.max(32769);
        let turned = if x < y {
            58982400 - from_axis
        } else {
            from_axis
        };
        ((turned + 32768) / 65536) as usize
    }

    // The largest tenth that is reached: the estimate or the one before, and where that fails, by halving all.
    fn tenth_of(self) -> usize
        ensures { result ≡ tenth_of self.x self.y }
    {
        let k = self.estimate();
        let before = self.reached(k - 1);
        let after = self.reached(k + 1);
        if before & !after {
            return self.tenth(k - 1, 1);
        }
        self.tenth(0, 899)
    }

    // What the hue is past k tenths of a degree.
    fn rest(self, k: usize) -> u64
        requires { (k ≤ 900) × (reaches self.x self.y k ≡ true) }
        ensures { result ≡ rest_of self.x self.y k self.chroma }
    {
        // the sine of the rest, taken for its arc, and that in 10^-6 degree
        let v = (self.y * sine::entry(900 - k) - self.x * sine::entry(k)) / self.chroma;
        (v * 57295780 / sine::ONE).min(99999)
    }

    // The hue of the point that was turned from the quadrant q.
    fn angle(self, q: Quadrant) -> u64
        requires { number_of q < 4 }
        ensures { result ≡ 90000000 * number_of q + angle_of self.x self.y self.chroma }
    {
        let k = self.tenth_of();
        sine::QUARTER_TURN * (q as u64) + sine::TENTH * (k as u64) + self.rest(k)
    }
}

// The hue of a point. Grey has the hue 0.
pub fn hue(p: Coordinates) -> u64
    requires ab_le_chroma { (p.a.n ≤ p.chroma) × (p.b.n ≤ p.chroma) }
    requires chroma_bound { p.chroma ≤ 2400000000 }
    ensures { result ≡ hue_of (int p.a) (int p.b) p.chroma }
{
    let q = Quadrant::of(p.a, p.b);
    if q == Quadrant::Grey {
        return 0;
    }
    let even = q as u64 % 2 == 0;
    let turned = Turned {
        x: signed::pick(even, p.a.n, p.b.n),
        y: signed::pick(even, p.b.n, p.a.n),
        chroma: p.chroma,
    };
    turned.angle(q)
}
