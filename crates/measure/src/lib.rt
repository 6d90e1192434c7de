// The public calls on readings: the three colour differences, the figures on the way to CIEDE2000
// and the verdict against a tolerance. Every float is answered or refused.
#![tactic(auto)]

ghost use Rattle.std.specs.Prelude.{◌≡◌, IfOk, ◌≤◌};
ghost use Rattle.refusal.specs.Refusals.{numbered, refused_with};
ghost use Rattle.sample.specs.Inner.{WeightsIn};
ghost use Rattle.fixed_point.specs.Rounding.{fixed_size};
ghost use Rattle.fixed_point.specs.Samples.{sample_of, weights_of};
ghost use Rattle.difference.specs.Cie76.{cie76_of};
ghost use Rattle.difference.specs.Cie94.{cie94_of};
ghost use Rattle.difference.specs.declared.cie94.Comparison.TheVariants.{WithoutStandard};
ghost use Rattle.difference.specs.Ciede2000.{figures_of, ciede2000_of};
ghost use Rattle.difference.specs.Inner.{intermediate_figures, IsFigures, FiguresIn};
ghost use Rattle.measure.specs.Answers.{double_of, answer_of, figures_row, figures_given};
ghost use Rattle.measure.specs.Calls.{pair_refusal, weighted_refusal, verdict_refusal, ciede2000_answer};
ghost use Rattle.measure.specs.Judged.{verdict_given};
ghost use Rattle.measure.specs.Inner.{IsAccepted};

use difference::cie94::{Application, Comparison};
use difference::ciede2000::Intermediates;
use difference::prepared::Prepared;
use fixed_point::{Reading, Weights};
use refusal::Refusal;
use sample::FixedWeights;

mod many;

pub use many::ciede2000_many;

// The difference and whether it is within the tolerance.
#[derive(Clone, Copy)]
pub struct Judgement {
    pub difference: f64,
    pub within: bool,
}

// Millionths as a double: the count is cast exactly, and divided once.
fn double(n: u64) -> f64
    requires { n ≤ 1400000000 }
    ensures { result ≡ double_of n }
{
    (n as f64) / 1000000.0
}

// Refusal 1, 2 or 3 of a pair, sample 1's first. A call makes all its tests before it rounds anything, so that
// a refused one costs little.
fn check_pair(standard: Reading, sample: Reading) -> Result<(), Refusal>
    ensures { refused_with result ≡ pair_refusal standard sample }
{
    fixed_point::check_reading(standard)?;
    fixed_point::check_reading(sample)
}

// CIE76 of two readings.
pub fn cie76(standard: Reading, sample: Reading) -> Result<f64, Refusal>
    ensures { let millionths = cie76_of (sample_of standard) (sample_of sample) in
        numbered result ≡ answer_of (pair_refusal standard sample) millionths }
{
    check_pair(standard, sample)?;
    let s = fixed_point::fixed_reading(standard);
    let t = fixed_point::fixed_reading(sample);
    Ok(double(difference::cie76::cie76(s, t)))
}

// An accepted pair and its weights, as the working takes them.
#[derive(Clone, Copy)]
struct Accepted {
    s: Prepared,
    t: Prepared,
    w: FixedWeights,
}

impl Accepted {
    // A pair that is not refused, with rounded weights.
    fn of(standard: Reading, sample: Reading, w: FixedWeights) -> Accepted
        requires pair_accepted { pair_refusal standard sample ≡ 0 }
        requires weights_in { WeightsIn w }
        ensures { IsAccepted standard sample w result }
    {
        Accepted {
            s: Prepared::of(fixed_point::fixed_reading(standard)),
            t: Prepared::of(fixed_point::fixed_reading(sample)),
            w,
        }
    }

    // The pair, or the first refusal that applies: of the readings, then the one of the weights.
    fn new(standard: Reading, sample: Reading, weights: Weights) -> Result<Accepted, Refusal>
        ensures refusal { refused_with result ≡ weighted_refusal standard sample weights }
        ensures accepted { IfOk result (λ x. IsAccepted standard sample (weights_of weights) x) }
    {
        check_pair(standard, sample)?;
        let rounded = weights.rounded()?;
        Ok(Accepted::of(standard, sample, rounded))
    }
}

// CIE94 of two readings: the caller says which constants it takes, and whether the first sample is a
// standard. Without a standard it is the same with the samples exchanged.
pub fn cie94(
    first: Reading,
    second: Reading,
    weights: Weights,
    application: Application,
    comparison: Comparison,
) -> Result<f64, Refusal>
    ensures is { let refusal = weighted_refusal first second weights in
        let millionths = cie94_of application comparison (weights_of weights) (sample_of first) (sample_of second) in
        numbered result ≡ answer_of refusal millionths }
    ensures symmetric { let refusal = weighted_refusal first second weights in
        let exchanged = cie94_of application comparison (weights_of weights) (sample_of second) (sample_of first) in
        (comparison ≡ WithoutStandard → numbered result ≡ answer_of refusal exchanged) }
{
    let x = Accepted::new(first, second, weights)?;
    Ok(double(difference::cie94::cie94(x.w, application, comparison, x.s, x.t)))
}

// CIEDE2000 of two readings: the same with the samples exchanged, and zero for samples that round to the same.
pub fn ciede2000(standard: Reading, sample: Reading, weights: Weights) -> Result<f64, Refusal>
    ensures is { numbered result ≡ ciede2000_answer standard sample weights }
    ensures symmetric { let refusal = weighted_refusal standard sample weights in
        numbered result ≡ answer_of refusal (ciede2000_of (weights_of weights) (sample_of sample) (sample_of standard)) }
    ensures zero { let refusal = weighted_refusal standard sample weights in
        (refusal ≡ 0 → sample_of standard ≡ sample_of sample → result ≡ Ok (double_of 0)) }
{
    let x = Accepted::new(standard, sample, weights)?;
    Ok(double(difference::ciede2000::ciede2000(x.w, x.s, x.t)))
}

// CIEDE2000 of two readings, and whether it is at most the tolerance.
#[tactic(auto, unfolding(crate::specs::Calls::pair_refusal, crate::specs::Calls::verdict_refusal, fixed_point::specs::Refusals::tolerance_refusal, refusal::specs::Refusals::first_refusal, refusal::specs::Refusals::given))]
pub fn verdict(
    standard: Reading,
    sample: Reading,
    weights: Weights,
    tolerance: f32,
) -> Result<Judgement, Refusal>
    ensures { let refusal = verdict_refusal standard sample weights tolerance in
        let millionths = ciede2000_of (weights_of weights) (sample_of standard) (sample_of sample) in
        numbered result ≡ verdict_given refusal millionths (fixed_size tolerance) }
{
    check_pair(standard, sample)?;
    fixed_point::check_weights(weights)?;
    let tolerance = fixed_point::rounded_tolerance(tolerance)?;
    let x = Accepted::of(standard, sample, fixed_point::fixed_weights(weights));
    let n = difference::ciede2000::ciede2000(x.w, x.s, x.t);
    Ok(Judgement {
        difference: double(n),
        within: difference::verdict::within_tolerance(n, tolerance),
    })
}

// The figures as signed numbers, in their order.
fn figures_row(r: Intermediates) -> [i64; 23]
    requires figures { IsFigures (intermediate_figures r) r }
    requires figures_in { FiguresIn (intermediate_figures r) }
    ensures { result ≡ figures_row (intermediate_figures r) }
{
    let p1 = r.p1;
    let p2 = r.p2;
    let hues = r.hues;
    let e = r.terms;
    let parts = r.parts;
    let a1 = signed::to_i64(p1.a);
    let b1 = signed::to_i64(p1.b);
    let a2 = signed::to_i64(p2.a);
    let b2 = signed::to_i64(p2.b);
    let hue_difference = signed::to_i64(hues.difference);
    let l = signed::to_i64(parts.l);
    let c = signed::to_i64(parts.c);
    let h = signed::to_i64(parts.h);
    [
        r.c1 as i64,
        a1,
        b1,
        p1.chroma as i64,
        hues.h1 as i64,
        r.c2 as i64,
        a2,
        b2,
        p2.chroma as i64,
        hues.h2 as i64,
        r.z as i64,
        i64::from(hues.far),
        hue_difference,
        hues.mean as i64,
        e.t as i64,
        e.sl as i64,
        e.sc as i64,
        e.sh as i64,
        e.r as i64,
        l,
        c,
        h,
        r.difference as i64,
    ]
}

// The figures of the working of CIEDE2000 on the way from two readings to their difference, in whole numbers:
// `figures_row` has their order and units.
pub fn figures(standard: Reading, sample: Reading, weights: Weights) -> Result<[i64; 23], Refusal>
    ensures { let refusal = weighted_refusal standard sample weights in
        let figures = figures_of (weights_of weights) (sample_of standard) (sample_of sample) in
        numbered result ≡ figures_given refusal figures }
{
    let x = Accepted::new(standard, sample, weights)?;
    Ok(figures_row(difference::ciede2000::figures(x.w, x.s, x.t)))
}
