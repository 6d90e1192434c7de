// Steps 9 to 11: the hue term T, the weighting functions SL, SC and SH of a pair of samples, and the rotation term R.
// Angles are whole numbers of 10^-6 degree, lightness of 1/10,000, chroma of 10^-7, the results of 10^-9.
#![tactic(auto)]

ghost use Rattle.std.specs.Prelude.{◌≡◌, ◌+◌, ◌*◌, ◌/◌, ◌^◌, ◌≤◌, ◌<◌, pos, ◌+ℤ◌, ◌-ℤ◌};
ghost use Rattle.signed.specs.Inner.{Within};
ghost use Rattle.sine.specs.Sine.{cosine_of};
ghost use Rattle.weighting.specs.Weighting.{term_of, hue_term, lightness_weight, chroma_weight, hue_weight};
ghost use Rattle.weighting.specs.Weighting.{hue_distance, rotation_sine, rotation};

use signed::Int;

// k hundredths of the cosine of an angle.
fn cosine_term(k: u64, angle: u64) -> Int
    requires k_bound { k ≤ 100 }
    requires angle_bound { angle < 2 ^ 63 }
    ensures { Within (term_of k (cosine_of angle)) (10000000 * k) result }
{
    signed::divided(signed::scaled(sine::cosine(angle), k), 100)
}

// T as far as its second cosine.
fn hue_term_start(h: u64) -> Int
    requires h_bound { h < 720000000 }
    ensures { Within (pos 1000000000 -ℤ term_of 17 (cosine_of (h + 330000000)) +ℤ term_of 24 (cosine_of (2 * h))) 1410000000 result }
{
    let first = cosine_term(17, h + 330000000);
    let second = cosine_term(24, 2 * h);
    signed::sum(signed::difference(Int::from(sine::ONE), first), second)
}

// The hue term T, of the mean hue.
pub fn hue_term(h: u64) -> u64
    requires h_bound { h < 720000000 }
    ensures { result ≡ hue_term h }
{
    let start = hue_term_start(h);
    let third = cosine_term(32, 3 * h + 6000000);
    let fourth = cosine_term(20, 4 * h + 297000000);
    signed::size(signed::difference(signed::sum(start, third), fourth))
}

// The weighting function of lightness, SL, of the lightness of both samples.
pub fn lightness_weight(l1: u64, l2: u64) -> u64
    requires l1_bound { l1 ≤ 1000000 }
    requires l2_bound { l2 ≤ 1000000 }
    ensures { result ≡ lightness_weight l1 l2 }
{
    let m = (l1 + l2).abs_diff(1000000);
    let square = m * m;
    sine::ONE + 750000 * square / isqrt::isqrt(1000000 * (square + 8000000000))
}

// The weighting function of chroma, SC, of the sum of both samples' chroma.
pub fn chroma_weight(s: u64) -> u64
    requires { s ≤ 4700000000 }
    ensures { result ≡ chroma_weight s }
{
    sine::ONE + 45 * s / 20
}

// The weighting function of hue, SH, of the sum of both samples' chroma and of T.
pub fn hue_weight(s: u64, t: u64) -> u64
    requires s_bound { s ≤ 4700000000 }
    requires t_bound { t ≤ 1930000000 }
    ensures { result ≡ hue_weight s t }
{
    sine::ONE + 3 * s / 4 * t / sine::ONE
}

// How far the mean hue h lies from 275 degrees, where the Gaussian is taken.
pub fn hue_distance(h: u64) -> u64
    ensures { result ≡ hue_distance h }
{
    h.abs_diff(275000000)
}

// The rotation term R, of the seventh-power ratio z and the Gaussian e at the mean hue; the published
// term is minus R.
pub fn gaussian_rotation(e: u64, z: u64) -> u64
    requires e_bound { e ≤ 1000000000 }
    requires z_bound { z ≤ 1000000000 }
    ensures { result ≡ 2 * z * rotation_sine e / 1000000000 }
{
    let k = signed::size(sine::sine(6 * e / 100));
    2 * z * k / sine::ONE
}

// The rotation term R, of the seventh-power ratio z and the mean hue h.
pub fn rotation_term(z: u64, h: u64) -> u64
    requires { z ≤ 1000000000 }
    ensures { result ≡ rotation z h }
{
    gaussian_rotation(gaussian::gaussian(hue_distance(h)), z)
}
