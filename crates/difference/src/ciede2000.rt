// CIEDE2000 with every figure on the way: steps 1 to 12.
ghost use Rattle.std.specs.Prelude.{◌≡◌, ◌≤◌, ◌<◌};
ghost use Rattle.sample.specs.Inner.{WeightsIn};
ghost use Rattle.difference.specs.Pair.{primed_of, terms_of};
ghost use Rattle.difference.specs.Ciede2000.{figures_of, ciede2000_of};
ghost use Rattle.difference.specs.Inner.{prepared_sample, point_of, IsPoint, HueFigures, IsPoints, IsFinished, Millionths, IsFigures};

use super::parts::SignedParts;
use super::prepared::Prepared;
use chroma::Coordinates;
use sample::FixedWeights;
use signed::Int;

// T, SL, SC, SH and R.
#[derive(Clone, Copy)]
pub struct Terms {
    pub t: u64,
    pub sl: u64,
    pub sc: u64,
    pub sh: u64,
    pub r: u64,
}

// What steps 5 to 8 give: both hues, which way round, the hue difference H and the mean hue.
#[derive(Clone, Copy)]
pub struct Hues {
    pub h1: u64,
    pub h2: u64,
    pub far: bool,
    pub difference: Int,
    pub mean: u64,
}

// What steps 2 and 3 give of a pair: Z(C1 + C2) and both points.
#[derive(Clone, Copy)]
struct Points {
    z: u64,
    p: Coordinates,
    q: Coordinates,
}

// What steps 9 to 12 give.
#[derive(Clone, Copy)]
struct Finished {
    terms: Terms,
    parts: SignedParts,
    difference: u64,
}

// CIEDE2000 and every figure on the way.
#[derive(Clone, Copy)]
pub struct Intermediates {
    pub c1: u64,
    pub p1: Coordinates,
    pub c2: u64,
    pub p2: Coordinates,
    pub z: u64,
    pub hues: Hues,
    pub terms: Terms,
    pub parts: SignedParts,
    pub difference: u64,
}

// Step 3: a', b' and C'.
fn primed(s: Prepared, z: u64) -> Coordinates
    requires { z ≤ 1000000000 }
    ensures { IsPoint (prepared_sample s) (primed_of z (prepared_sample s)) result }
{
    let a = chroma::primed_a(s.ab.a, z);
    let b = chroma::in_ten_millionths(s.ab.b);
    Coordinates {
        a,
        b,
        chroma: chroma::primed_chroma(a, b),
    }
}

// Steps 2 and 3 of a pair.
fn points_of(s: Prepared, t: Prepared) -> Points
    ensures { IsPoints (prepared_sample s) (prepared_sample t) result }
{
    let z = chroma::ratio(s.chroma + t.chroma);
    Points {
        z,
        p: primed(s, z),
        q: primed(t, z),
    }
}

// Steps 5 to 8.
fn hue_figures(s: Prepared, t: Prepared, x: Points) -> Hues
    requires { IsPoints (prepared_sample s) (prepared_sample t) x }
    ensures { HueFigures (prepared_sample s) (prepared_sample t) (point_of x.p) (point_of x.q) result }
{
    let side = hue_difference::side_of(s.ab, t.ab);
    let h1 = hue::hue(x.p);
    let h2 = hue::hue(x.q);
    Hues {
        h1,
        h2,
        far: side.far,
        difference: hue_difference::hue_difference(side.sign, x.p, x.q),
        mean: hue_difference::mean_hue(side, h1, h2),
    }
}

// Steps 9 to 11, of both lightnesses, the sum of both chromas and the mean hue.
fn weighting_terms(l1: u64, l2: u64, sum: u64, mean: u64) -> Terms
    requires lightness_bounds { (l1 ≤ 1000000) × (l2 ≤ 1000000) }
    requires chroma_and_hue_bounds { (sum ≤ 4615105632) × (mean < 720000000) }
    ensures { result ≡ terms_of l1 l2 sum mean }
{
    let t = weighting::hue_term(mean);
    Terms {
        t,
        sl: weighting::lightness_weight(l1, l2),
        sc: weighting::chroma_weight(sum),
        sh: weighting::hue_weight(sum, t),
        r: weighting::rotation_term(chroma::ratio(sum), mean),
    }
}

// Steps 9 to 12.
fn finish(w: FixedWeights, s: Prepared, t: Prepared, x: Points, hues: Hues) -> Finished
    requires weights_in { WeightsIn w }
    requires points { IsPoints (prepared_sample s) (prepared_sample t) x }
    requires hue_figures { HueFigures (prepared_sample s) (prepared_sample t) (point_of x.p) (point_of x.q) hues }
    ensures { IsFinished (figures_of w (prepared_sample s) (prepared_sample t)) result }
{
    let c1 = x.p.chroma;
    let c2 = x.q.chroma;
    let terms = weighting_terms(s.l, t.l, c1 + c2, hues.mean);
    let dl = signed::natural_difference(t.l, s.l);
    let dc = signed::natural_difference(c2, c1);
    let parts = super::parts::parts(w, dl, dc, hues.difference, terms.sl, terms.sc, terms.sh);
    Finished {
        terms,
        parts,
        difference: super::parts::root_of_parts(parts, terms.r),
    }
}

// CIEDE2000 of two samples with every figure on the way.
pub fn figures(w: FixedWeights, s: Prepared, t: Prepared) -> Intermediates
    requires { WeightsIn w }
    ensures { IsFigures (figures_of w (prepared_sample s) (prepared_sample t)) result }
{
    let x = points_of(s, t);
    let hues = hue_figures(s, t, x);
    let r = finish(w, s, t, x, hues);
    Intermediates {
        c1: s.chroma,
        p1: x.p,
        c2: t.chroma,
        p2: x.q,
        z: x.z,
        hues,
        terms: r.terms,
        parts: r.parts,
        difference: r.difference,
    }
}

// CIEDE2000 of two samples, in millionths. The figures are not put together for it.
pub fn ciede2000(w: FixedWeights, s: Prepared, t: Prepared) -> u64
    requires { WeightsIn w }
    ensures { Millionths (ciede2000_of w (prepared_sample s) (prepared_sample t)) result }
{
    let x = points_of(s, t);
    let hues = hue_figures(s, t, x);
    let r = finish(w, s, t, x, hues);
    r.difference
}

// The differences of two pairs, in millionths.
#[derive(Clone, Copy)]
pub struct Two {
    pub first: u64,
    pub second: u64,
}

// CIEDE2000 of two pairs, step by step side by side. Each step of one pair waits for the roots and
// divisions of the step before it; those of the other pair fill the wait.
pub fn ciede2000_two(w: FixedWeights, s1: Prepared, t1: Prepared, s2: Prepared, t2: Prepared) -> Two
    requires { WeightsIn w }
    ensures first { Millionths (ciede2000_of w (prepared_sample s1) (prepared_sample t1)) result.first }
    ensures second { Millionths (ciede2000_of w (prepared_sample s2) (prepared_sample t2)) result.second }
{
    let x1 = points_of(s1, t1);
    let x2 = points_of(s2, t2);
    let hues1 = hue_figures(s1, t1, x1);
    let hues2 = hue_figures(s2, t2, x2);
    let r1 = finish(w, s1, t1, x1, hues1);
    let r2 = finish(w, s2, t2, x2, hues2);
    Two {
        first: r1.difference,
        second: r2.difference,
    }
}
