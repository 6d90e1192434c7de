// Step 12: the weighted parts with their signs, and the difference that they come to.
ghost use Rattle.std.specs.Prelude.{◌≡◌, ◌*◌, ◌/◌, ◌^◌, ◌≤◌, ◌<◌};
ghost use Rattle.signed.specs.Inner.{int, Exactly};
ghost use Rattle.sample.specs.Inner.{WeightIn, WeightsIn};
ghost use Rattle.difference.specs.Parts.{weighted, part_of, parts_of, combined};
ghost use Rattle.difference.specs.Inner.{signed_parts, SignedPartsIn, IsParts, Squares, Millionths};

use sample::FixedWeights;
use signed::Int;

// The signed lightness, chroma and hue parts.
#[derive(Clone, Copy)]
pub struct SignedParts {
    pub l: Int,
    pub c: Int,
    pub h: Int,
}

// A difference d, times scale, over the weight w, toward zero.
fn part(d: Int, scale: u64, w: u64) -> Int
    requires product_fits { d.n * scale < 2 ^ 64 }
    requires w_nonzero { 0 < w }
    ensures { Exactly (part_of (int d) scale w) (d.n * scale / w) result }
{
    signed::divided(signed::scaled(d, scale), w)
}

// k S / 10^4.
fn weight(k: u64, s: u64) -> u64
    requires weight_in { WeightIn k }
    requires s_bounds { (1000000000 ≤ s) × (s ≤ 11400000000) }
    ensures { (result ≡ weighted k s) × (500000000 ≤ result) }
{
    k * s / 10000
}

// Step 12's parts.
pub fn parts(w: FixedWeights, dl: Int, dc: Int, dh: Int, sl: u64, sc: u64, sh: u64) -> SignedParts
    requires weights_in { WeightsIn w }
    requires difference_bounds { (dl.n ≤ 1000000) × ((dc.n ≤ 2307552816) × (dh.n ≤ 4615105632)) }
    requires sl_bounds { (1000000000 ≤ sl) × (sl ≤ 11400000000) }
    requires sc_bounds { (1000000000 ≤ sc) × (sc ≤ 11400000000) }
    requires sh_bounds { (1000000000 ≤ sh) × (sh ≤ 11400000000) }
    ensures { IsParts (parts_of w (int dl) (int dc) (int dh) sl sc sh) result }
{
    SignedParts {
        l: part(dl, 100000000000, weight(w.l, sl)),
        c: part(dc, 100000000, weight(w.c, sc)),
        h: part(dh, 100000000, weight(w.h, sh)),
    }
}

// x² + y² + z².
pub fn sum_of_squares(x: Int, y: Int, z: Int) -> u64
    requires { (x.n ≤ 1000000000) × ((y.n ≤ 1000000000) × (z.n ≤ 1000000000)) }
    ensures { Squares x y z result }
{
    x.n * x.n + y.n * y.n + z.n * z.n
}

// root(l² + c² + h² - c (h R / 10^9)): the published rotation term is minus R.
pub fn root_of_parts(p: SignedParts, r: u64) -> u64
    requires signed_parts_in { SignedPartsIn p }
    requires r_bound { r ≤ 2000000000 }
    ensures { Millionths (combined (signed_parts p) r) result }
{
    let rotation = Int { neg: true, n: r };
    let turned = signed::product(
        p.c,
        signed::divided(signed::product(p.h, rotation), sine::ONE),
    );
    let sum = Int::from(sum_of_squares(p.l, p.c, p.h));
    isqrt::isqrt(signed::size(signed::sum(sum, turned)))
}
