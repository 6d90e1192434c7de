// Readings, weights and tolerances as floats: which are accepted, and the whole number of 1/10,000
// that each accepted float is rounded to.
#![tactic(auto)]

ghost use Rattle.std.specs.Prelude.{◌≡◌, ◌*◌, ◌≤◌, ◌<◌, false, not, ◌||◌, IfOk};
ghost use Rattle.std.specs.Float.Ieee.Exact.{HasValue};
ghost use Rattle.std.specs.Float.Ieee.Positive.{num, den};
ghost use Rattle.std.specs.Float.Ieee.Scale.{finite};
ghost use Rattle.refusal.specs.Refusals.{refused_with};
ghost use Rattle.signed.specs.Inner.{int};
ghost use Rattle.fixed_point.specs.Limits.{within};
ghost use Rattle.fixed_point.specs.Inner.{AtMost};
ghost use Rattle.fixed_point.specs.Rounding.{half_of, fixed_size, fixed_of};
ghost use Rattle.fixed_point.specs.Refusals.{reading_refusal, weights_refusal, tolerance_refusal};
ghost use Rattle.fixed_point.specs.Samples.{sample_of, weights_of};
ghost use Rattle.sample.specs.Inner.{lab_of, WeightsIn};

use refusal::Refusal;
use sample::{FixedWeights, Lab};
use signed::Int;

// A measured colour in CIELAB.
#[derive(Clone, Copy)]
pub struct Reading {
    pub l: f32,
    pub a: f32,
    pub b: f32,
}

// The weights kL, kC and kH of the lightness, chroma and hue parts.
#[derive(Clone, Copy)]
pub struct Weights {
    pub l: f32,
    pub c: f32,
    pub h: f32,
}

// Whether x is outside the limits. A NaN is.
fn outside(x: f32, low: f32, high: f32) -> bool
    ensures { result ≡ not (within low high x) }
{
    !(low <= x && x <= high)
}

// Whether L, a or b is infinite or a NaN.
fn some_not_finite(r: Reading) -> bool
    ensures { result ≡ (not (finite r.l) || not (finite r.a) || not (finite r.b)) }
{
    !r.l.is_finite() | !r.a.is_finite() | !r.b.is_finite()
}

// Refusal 1, 2 or 3 of a reading.
pub fn check_reading(r: Reading) -> Result<(), Refusal>
    ensures { refused_with result ≡ reading_refusal r }
{
    if some_not_finite(r) {
        return Err(Refusal::NotFinite);
    }
    if outside(r.l, 0.0, 100.0) {
        return Err(Refusal::Lightness);
    }
    if outside(r.a, -128.0, 128.0) {
        return Err(Refusal::Opponent);
    }
    if outside(r.b, -128.0, 128.0) {
        return Err(Refusal::Opponent);
    }
    Ok(())
}

// Refusal 4 of the weights.
pub fn check_weights(w: Weights) -> Result<(), Refusal>
    ensures { refused_with result ≡ weights_refusal w }
{
    if outside(w.l, 0.5, 10.0) {
        return Err(Refusal::Weight);
    }
    if outside(w.c, 0.5, 10.0) {
        return Err(Refusal::Weight);
    }
    if outside(w.h, 0.5, 10.0) {
        return Err(Refusal::Weight);
    }
    Ok(())
}

// Refusal 5 of a tolerance.
pub fn check_tolerance(t: f32) -> Result<(), Refusal>
    ensures { refused_with result ≡ tolerance_refusal t }
{
    if outside(t, 0.0, 100.0) {
        return Err(Refusal::Tolerance);
    }
    Ok(())
}

// What a half goes to, its whole part being q.
fn half(q: u64) -> u64
    requires { q < 2560000 }
    ensures { result ≡ half_of q }
{
    q + q % 2 // the even neighbour
}

// The size of x in halves of 1/10,000. The product is exact: a float has 24 binary digits, and
// 20,000 has 10 before its zeros.
fn halves(x: f32) -> f64
    requires { AtMost 128 x }
    ensures { HasValue result false (num x * 20000) (den x) }
{
    let v = std::num::f32_to_f64_with_nan(x);
    if v == 0.0 {
        return 0.0;
    }
    if v < 0.0 {
        return -v * 20000.0;
    }
    v * 20000.0
}

// The size of x in whole numbers of 1/10,000: an even number of halves is below a half, an odd one
// a half where nothing is left over and above it otherwise.
fn fixed_size(x: f32) -> u64
    requires { AtMost 128 x }
    ensures { result ≡ fixed_size x }
{
    let w = halves(x);
    let t = std::num::truncating_f64_to_u64(w);
    let q = t / 2;
    // found before it is asked whether it is wanted: nobody can foresee whether t is even
    let from_a_half = if w == t as f64 { half(q) } else { q + 1 };
    if t % 2 == 0 { q } else { from_a_half }
}

// x in whole numbers of 1/10,000.
fn fixed(x: f32) -> Int
    requires { AtMost 128 x }
    ensures { int result ≡ fixed_of x }
{
    Int {
        neg: x < 0.0,
        n: fixed_size(x),
    }
}

// The sample that an accepted reading is rounded to.
pub fn fixed_reading(r: Reading) -> Lab
    requires { reading_refusal r ≡ 0 }
    ensures { lab_of result ≡ sample_of r }
{
    Lab {
        l: fixed_size(r.l),
        a: fixed(r.a),
        b: fixed(r.b),
    }
}

// Accepted weights, rounded.
pub fn fixed_weights(w: Weights) -> FixedWeights
    requires { weights_refusal w ≡ 0 }
    ensures { result ≡ weights_of w }
{
    FixedWeights {
        l: fixed_size(w.l),
        c: fixed_size(w.c),
        h: fixed_size(w.h),
    }
}

// An accepted tolerance, rounded.
pub fn fixed_tolerance(t: f32) -> u64
    requires { tolerance_refusal t ≡ 0 }
    ensures { result ≡ fixed_size t }
{
    fixed_size(t)
}

impl Reading {
    // The sample that the reading is rounded to.
    pub fn rounded(self) -> Result<Lab, Refusal>
        ensures refusal { refused_with result ≡ reading_refusal self }
        ensures sample { IfOk result (λ s. lab_of s ≡ sample_of self) }
    {
        check_reading(self)?;
        Ok(fixed_reading(self))
    }
}

impl Weights {
    // The weights, rounded.
    pub fn rounded(self) -> Result<FixedWeights, Refusal>
        ensures refusal { refused_with result ≡ weights_refusal self }
        ensures weights { IfOk result (λ w. w ≡ weights_of self) }
        ensures within { IfOk result WeightsIn }
    {
        check_weights(self)?;
        Ok(fixed_weights(self))
    }
}

// A tolerance, rounded.
pub fn rounded_tolerance(t: f32) -> Result<u64, Refusal>
    ensures refusal { refused_with result ≡ tolerance_refusal t }
    ensures tolerance { IfOk result (λ n. n ≡ fixed_size t) }
    ensures within { IfOk result (λ n. n ≤ 1000000) }
{
    check_tolerance(t)?;
    Ok(fixed_tolerance(t))
}
