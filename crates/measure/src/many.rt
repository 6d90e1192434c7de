// CIEDE2000 of many pairs in one call: the weights are rounded once for all.
ghost use Rattle.std.specs.Prelude.{◌≡◌, Ok, ◌+◌, ◌*◌, ◌≤◌, ◌<◌, length, set, IfOk};
ghost use Rattle.std.specs.Result.{ForOk};
ghost use Rattle.refusal.specs.Refusals.{first_of, numbered, refused_with};
ghost use Rattle.sample.specs.Inner.{WeightsIn};
ghost use Rattle.measure.specs.Answers.{refusal_of, difference_of};
ghost use Rattle.measure.specs.Many.{reading_at, results, Answered, Compares};
ghost use Rattle.measure.specs.Calls.{pair_refusal};
ghost use Rattle.measure.specs.Inner.{IsAccepted, accepted_answer, rounded_answer, rounded_pair};

use super::{Accepted, check_pair, double};
use difference::ciede2000::{ciede2000, ciede2000_two};
use fixed_point::{Reading, Weights};
use refusal::Refusal;
use sample::FixedWeights;

// A standard and its sample.
#[derive(Clone, Copy)]
struct Colours {
    s: Reading,
    t: Reading,
}

// The colour at a place.
fn reading_at(colours: &[f32], k: usize) -> Reading
    requires { 3 * k + 2 < length colours.now }
    ensures { result ≡ reading_at colours.now k }
{
    let first = 3 * k;
    Reading {
        l: colours[first],
        a: colours[first + 1],
        b: colours[first + 2],
    }
}

// The pair at a place.
fn pair_at(standards: &[f32], samples: &[f32], k: usize) -> Colours
    requires { (3 * k + 2 < length standards.now) × (3 * k + 2 < length samples.now) }
    ensures { (result.s ≡ reading_at standards.now k) × (result.t ≡ reading_at samples.now k) }
{
    let s = reading_at(standards, k);
    let t = reading_at(samples, k);
    Colours { s, t }
}

// The pair with weights that were rounded before, or the first refusal that applies.
fn accepted(weights: Result<FixedWeights, Refusal>, x: Colours) -> Result<Accepted, Refusal>
    requires { ForOk weights WeightsIn }
    ensures refusal { refused_with result ≡ first_of (pair_refusal x.s x.t) (refused_with weights) }
    ensures accepted { IfOk result (λ a. (weights ≡ Ok a.w) × IsAccepted x.s x.t a.w a) }
{
    check_pair(x.s, x.t)?;
    let w = weights?;
    Ok(Accepted::of(x.s, x.t, w))
}

// CIEDE2000 of a pair that is accepted, or its refusal.
fn answer(pair: Result<Accepted, Refusal>) -> Result<f64, Refusal>
    requires { ForOk pair (λ a. WeightsIn a.w) }
    ensures { numbered result ≡ accepted_answer pair }
{
    let x = pair?;
    Ok(double(ciede2000(x.w, x.s, x.t)))
}

// CIEDE2000 of a pair.
fn pair_answer(weights: Result<FixedWeights, Refusal>, x: Colours) -> Result<f64, Refusal>
    requires { ForOk weights WeightsIn }
    ensures { numbered result ≡ rounded_answer weights x.s x.t }
{
    answer(accepted(weights, x))
}

// CIEDE2000 of two pairs, side by side where neither is refused.
fn two_answers(
    weights: Result<FixedWeights, Refusal>,
    x: Colours,
    y: Colours,
) -> (Result<f64, Refusal>, Result<f64, Refusal>)
    requires { ForOk weights WeightsIn }
    ensures first { numbered result.0 ≡ rounded_answer weights x.s x.t }
    ensures second { numbered result.1 ≡ rounded_answer weights y.s y.t }
{
    let first = accepted(weights, x);
    let second = accepted(weights, y);
    let (Ok(p), Ok(q)) = (first, second) else {
        return (answer(first), answer(second));
    };
    let two = ciede2000_two(p.w, p.s, p.t, q.s, q.t);
    (Ok(double(two.first)), Ok(double(two.second)))
}

// Puts an answer in its place.
fn put(answer: Result<f64, Refusal>, k: usize, differences: &mut [f64], refusals: &mut [u8])
    requires { (k < length differences.old) × (k < length refusals.old) }
    ensures difference { differences.new ≡ set differences.old k (difference_of (numbered answer)) }
    ensures refusal { refusals.new ≡ set refusals.old k (refusal_of (numbered answer)) }
{
    match answer {
        Ok(difference) => {
            differences[k] = difference;
            refusals[k] = 0;
        }
        Err(refusal) => {
            differences[k] = 0.0;
            refusals[k] = refusal.number();
        }
    }
}

// The answers of n pairs, each in its place, two at a time.
fn answer_pairs(
    weights: Result<FixedWeights, Refusal>,
    n: usize,
    standards: &[f32],
    samples: &[f32],
    differences: &mut [f64],
    refusals: &mut [u8],
)
    requires weights_in { ForOk weights WeightsIn }
    requires colours_in_lists { (3 * n ≤ length standards.now) × (3 * n ≤ length samples.now) }
    requires room { (n ≤ length differences.old) × (n ≤ length refusals.old) }
    ensures { let answer = rounded_pair weights standards.now samples.now in
        let old = results differences.old refusals.old in
        let new = results differences.new refusals.new in
        Answered answer n old new }
{
    for i in 0..n / 2 {
        let k = 2 * i;
        let next = k + 1;
        let x = pair_at(standards, samples, k);
        let y = pair_at(standards, samples, next);
        let (first, second) = two_answers(weights, x, y);
        put(first, k, differences, refusals);
        put(second, next, differences, refusals);
    }
    if n % 2 == 1 {
        let last = n - 1;
        let answer = pair_answer(weights, pair_at(standards, samples, last));
        put(answer, last, differences, refusals);
    }
}

// CIEDE2000 of the pairs of two lists of colours, three floats to a colour: L, a and b. As many as every
// list holds whole are answered, each as `ciede2000` answers it; their number.
pub fn ciede2000_many(
    standards: &[f32],
    samples: &[f32],
    weights: Weights,
    differences: &mut [f64],
    refusals: &mut [u8],
) -> usize
    ensures answers { let old = results differences.old refusals.old in
        let new = results differences.new refusals.new in
        Compares standards.now samples.now weights old new result }
    ensures colours { (standards.exit.now ≡ standards.entry.now)
        × (samples.exit.now ≡ samples.entry.now) }
{
    let colours = (standards.len() / 3).min(samples.len() / 3);
    let room = differences.len().min(refusals.len());
    let n = colours.min(room);
    answer_pairs(
        weights.rounded(),
        n,
        standards,
        samples,
        differences,
        refusals,
    );
    n
}
