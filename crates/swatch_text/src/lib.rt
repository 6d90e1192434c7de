// A swatch, or a refusal, as a line of text.
#![tactic(auto)]

ghost use Rattle.std.specs.Prelude.{◌≡◌, [], ◌∷◌, ◌++◌, ◌+◌, ◌≤◌, length, take};
ghost use Rattle.buffer.specs.Writing.{Written};
ghost use Rattle.decimal.specs.Writing.{fixed_text, refused_text};
ghost use Rattle.swatch_text.specs.Lines.{swatch_text};

use array_text::ArrayText;
use signed::Int;
use swatches::Swatch;

// More bytes than a line has: a number of 21 and three of 23.
const LINE_MOST: usize = 96;

// A line.
pub type Line = ArrayText<LINE_MOST>;

// Writes a value in 1/10,000 with its decimals, and the byte `end`.
fn put_value(out: &mut [u8], at: usize, x: i32, end: u8) -> usize
    requires { at + 23 ≤ length out.old }
    ensures { Written out.old at (fixed_text 4 x ++ (end ∷ [])) 23 out.new result }
{
    decimal::put_fixed(out, at, Int::from(x), 4, end)
}

// Writes the line of a swatch to the front of a buffer.
fn put_swatch(out: &mut [u8], s: Swatch) -> usize
    requires { 90 ≤ length out.old }
    ensures { Written out.old 0 (swatch_text s) 90 out.new result }
{
    let l = decimal::put_number(out, 0, s.code as u64, b' ');
    let a = put_value(out, l, s.l, b' ');
    let b = put_value(out, a, s.a, b' ');
    put_value(out, b, s.b, b'\n')
}

// The line of a swatch.
pub fn swatch_line(s: Swatch) -> Line
    ensures { take result.len result.text ≡ swatch_text s }
{
    let mut text = [0u8; LINE_MOST];
    let len = put_swatch(&mut text, s);
    ArrayText::new(text, len)
}

// The line of a refusal.
pub fn refused_line(n: u8) -> Line
    ensures { take result.len result.text ≡ refused_text n }
{
    let mut text = [0u8; LINE_MOST];
    let len = decimal::put_refused(&mut text, 0, n);
    ArrayText::new(text, len)
}
