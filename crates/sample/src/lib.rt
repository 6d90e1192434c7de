// Samples, weights and colours in whole numbers of 1/10,000, and their limits.
// No floats: what reads floats, decks or text comes here with whole numbers.
#![tactic(auto)]

ghost use Rattle.std.specs.Prelude.{◌≡◌, ◌≤◌, not, eqb, IfOk};
ghost use Rattle.signed.specs.Inner.{int};
ghost use Rattle.sample.specs.Sample.{lightness_out, opponent_out, colour_refusal, colour_sample};
ghost use Rattle.sample.specs.InnerNarrowing.{Narrowed};
ghost use Rattle.refusal.specs.Refusals.{refused_with};

use refusal::Refusal;
use signed::Int;

// The greatest lightness, 100.
const LIGHTNESS_MOST: i32 = 1000000;

// The greatest size of a and b, 128.
const OPPONENT_MOST: i32 = 1280000;

// A sample: a colour within the limits.
#[derive(Clone, Copy)]
pub struct Lab {
    pub l: u64,
    pub a: Int,
    pub b: Int,
    pub ghost l_within: { l ≤ 1000000 },
    pub ghost a_within: { a.n ≤ 1280000 },
    pub ghost b_within: { b.n ≤ 1280000 },
}

// The weights kL, kC and kH.
#[derive(Clone, Copy)]
pub struct FixedWeights {
    pub l: u64,
    pub c: u64,
    pub h: u64,
}

// A colour as a deck or a text gives it: any numbers.
#[derive(Clone, Copy)]
pub struct FixedColour {
    pub l: i32,
    pub a: i32,
    pub b: i32,
}

// Whether a lightness is from 0 to 100. No branch, here and below: a walk of a deck tests several at once.
fn lightness_within(l: i32) -> bool
    ensures { result ≡ not (lightness_out l) }
{
    (0 <= l) & (l <= LIGHTNESS_MOST)
}

// Whether a or b is from -128 to 128.
fn opponent_within(x: i32) -> bool
    ensures { result ≡ not (opponent_out x) }
{
    (-OPPONENT_MOST <= x) & (x <= OPPONENT_MOST)
}

// A number of any size in 32 bits: one that is outside all limits stays outside.
fn narrowed(x: Int) -> i32
    ensures { Narrowed (int x) result }
{
    if (OPPONENT_MOST as u64) < signed::size(x) {
        i32::MAX
    } else {
        signed::to_i32(x)
    }
}

impl FixedColour {
    ghost use Rattle.sample.specs.Inner.{colour, colour_of, lab_of};

    // The colour of numbers of any size: refused as they are, and where they are not, they themselves.
    pub fn of(l: Int, a: Int, b: Int) -> FixedColour
        ensures refusal { colour_refusal (colour_of result) ≡ colour_refusal (colour (int l) (int a) (int b)) }
        ensures same { colour_refusal (colour_of result) ≡ 0 → colour_of result ≡ colour (int l) (int a) (int b) }
    {
        FixedColour {
            l: narrowed(l),
            a: narrowed(a),
            b: narrowed(b),
        }
    }

    // Whether the colour is within the limits.
    #[tactic(auto, unfolding(crate::specs::Sample::colour_refusal))]
    pub fn is_within(self) -> bool
        ensures { result ≡ eqb (colour_refusal (colour_of self)) 0 }
    {
        lightness_within(self.l) & (opponent_within(self.a) & opponent_within(self.b))
    }

    // A colour within the limits as a sample.
    pub fn sample(self) -> Lab
        requires { colour_refusal (colour_of self) ≡ 0 }
        ensures { lab_of result ≡ colour_sample (colour_of self) }
    {
        Lab {
            l: self.l as u64,
            a: Int::from(self.a),
            b: Int::from(self.b),
        }
    }

    // The colour as a sample, or its refusal.
    #[tactic(auto, unfolding(crate::specs::Sample::colour_refusal))]
    pub fn accepted(self) -> Result<Lab, Refusal>
        ensures refusal { refused_with result ≡ colour_refusal (colour_of self) }
        ensures sample { IfOk result (λ s. lab_of s ≡ colour_sample (colour_of self)) }
    {
        if !lightness_within(self.l) {
            return Err(Refusal::Lightness);
        }
        if !(opponent_within(self.a) & opponent_within(self.b)) {
            return Err(Refusal::Opponent);
        }
        Ok(self.sample())
    }
}
