// CIE94: unprimed chroma, no rotation term, weighting functions of the standard's chroma or, where
// neither sample is a standard, of the geometric mean of both.
ghost use Rattle.std.specs.Prelude.{◌≡◌, ◌*◌, ◌^◌, ◌≤◌, ◌<◌};
ghost use Rattle.isqrt.specs.Root.{root_of};
ghost use Rattle.signed.specs.Inner.{Within};
ghost use Rattle.sample.specs.Inner.{WeightsIn};
ghost use Rattle.difference.specs.Pair.{plain_of, pair_hue_difference};
ghost use Rattle.difference.specs.Cie94.{chroma_constant, hue_constant, weighting_chroma, weighting_function, parts94_of, cie94_of};
ghost use Rattle.difference.specs.Inner.{prepared_sample, IsPoint, IsParts, IsChroma, Weight, Millionths};

use super::parts::SignedParts;
use super::prepared::Prepared;
use chroma::Coordinates;
use sample::FixedWeights;
use signed::Int;

// Whose constants the weighting functions take.
#[derive(Clone, Copy)]
pub enum Application {
    GraphicArts,
    Textiles,
}

// Whether sample 1 is a standard. Without one the difference is the same with the samples exchanged.
#[derive(Clone, Copy)]
pub enum Comparison {
    WithStandard,
    WithoutStandard,
}

// 1000 a, 1000 b and C.
fn plain(s: Prepared) -> Coordinates
    ensures { IsPoint (prepared_sample s) (plain_of (prepared_sample s)) result }
{
    Coordinates {
        a: chroma::in_ten_millionths(s.ab.a),
        b: chroma::in_ten_millionths(s.ab.b),
        chroma: s.chroma,
    }
}

// The root of C1 × C2.
fn geometric_mean(c1: u64, c2: u64) -> u64
    requires { c1 * c2 < 2 ^ 64 }
    ensures { result ≡ root_of (c1 * c2) }
{
    isqrt::isqrt(c1 * c2)
}

// The chroma that SC and SH use.
fn weighting_chroma(comparison: Comparison, c1: u64, c2: u64) -> u64
    requires c1_bound { c1 ≤ 1810193359 }
    requires c2_bound { c2 ≤ 1810193359 }
    ensures { IsChroma (weighting_chroma comparison c1 c2) result }
{
    match comparison {
        Comparison::WithStandard => c1,
        Comparison::WithoutStandard => geometric_mean(c1, c2),
    }
}

// K1 and K2, in 1/1,000.
fn chroma_constant(application: Application) -> u64
    ensures { result ≡ chroma_constant application }
{
    match application {
        Application::GraphicArts => 45,
        Application::Textiles => 48,
    }
}

fn hue_constant(application: Application) -> u64
    ensures { result ≡ hue_constant application }
{
    match application {
        Application::GraphicArts => 15,
        Application::Textiles => 14,
    }
}

// SC and SH, of their constant and the chroma that they use.
fn weighting_function(constant: u64, c: u64) -> u64
    requires constant_bound { constant ≤ 48 }
    requires c_bound { c ≤ 1810193359 }
    ensures { Weight (weighting_function constant c) result }
{
    sine::ONE + constant * c / 10
}

// Steps 6 and 7 on 1000 a and 1000 b.
fn hue_difference94(s: Prepared, t: Prepared) -> Int
    ensures { let x = prepared_sample s in
        let y = prepared_sample t in
        Within (pair_hue_difference x y (plain_of x) (plain_of y)) 4615105632 result }
{
    let side = hue_difference::side_of(s.ab, t.ab);
    hue_difference::hue_difference(side.sign, plain(s), plain(t))
}

// The lightness, chroma and hue parts.
fn parts94(
    w: FixedWeights,
    application: Application,
    comparison: Comparison,
    s: Prepared,
    t: Prepared,
) -> SignedParts
    requires weights_in { WeightsIn w }
    ensures { IsParts (parts94_of application comparison w (prepared_sample s) (prepared_sample t)) result }
{
    let h = hue_difference94(s, t);
    let l = signed::natural_difference(t.l, s.l);
    let c = signed::natural_difference(t.chroma, s.chroma);
    let chroma = weighting_chroma(comparison, s.chroma, t.chroma);
    let sc = weighting_function(chroma_constant(application), chroma);
    let sh = weighting_function(hue_constant(application), chroma);
    super::parts::parts(w, l, c, h, sine::ONE, sc, sh)
}

// CIE94 of two samples, in millionths.
pub fn cie94(
    w: FixedWeights,
    application: Application,
    comparison: Comparison,
    s: Prepared,
    t: Prepared,
) -> u64
    requires weights_in { WeightsIn w }
    ensures { Millionths (cie94_of application comparison w (prepared_sample s) (prepared_sample t)) result }
{
    super::parts::root_of_parts(parts94(w, application, comparison, s, t), 0)
}
