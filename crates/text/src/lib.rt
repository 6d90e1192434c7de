// The text program on bytes: a line of six decimals in, a line of figures or a refusal out.
// The input comes in pieces of any size, and a line of any length costs the same memory.
#![tactic(auto)]

ghost use Rattle.std.specs.Prelude.{◌≡◌, List, [], ◌++◌, ℕ, ◌+◌, ◌≤◌, ◌<◌, ◌↔◌, length, take, replicate, IsTrue, MatchOption};
ghost use Rattle.sample.specs.Inner.{lab_of};
ghost use Rattle.buffer.specs.Writing.{Written};
ghost use Rattle.text.specs.Line.{read_colour, read_pair};
ghost use Rattle.text.specs.Figures.{figures_text};
ghost use Rattle.text.specs.Text.{figures_line, pair_answer, answer_of, part, too_long, held_answer, text_of};
ghost use Rattle.text.specs.Stream.{answer_most, held_with, last_text, state_of, text_so_far, state_held, Stepped, Follows};
ghost use Rattle.text.specs.Inner.{colour_read, colour_found, line_found, six_list, figures_or_refusal};

use array_text::ArrayText;
use difference::cie94::{Application, Comparison};
use difference::prepared::Prepared;
use refusal::Refusal;
use sample::{FixedColour, FixedWeights, Lab};
use signed::Int;

// The most bytes of a line that is read.
const LINE_MOST: usize = 96;

// The most bytes of an answer: six figures of at most 22 bytes, and a byte after each.
const ANSWER_MOST: usize = 138;

// L, a and b as a line gives them.
#[derive(Clone, Copy)]
struct Decimals {
    l: Int,
    a: Int,
    b: Int,
}

// Three decimals with one space between, and the bytes after them.
fn read_colour(s: &[u8]) -> Option<(Decimals, &[u8])>
    ensures { colour_found result ≡ read_colour s.now }
{
    let (l, after_l) = decimal::read_decimal(s)?;
    let (a, after_a) = decimal::read_decimal(decimal::after_space(after_l))?;
    let (b, rest) = decimal::read_decimal(decimal::after_space(after_a))?;
    Some((Decimals { l, a, b }, rest))
}

// The two colours of a line.
fn parse(s: &[u8]) -> Option<(Decimals, Decimals)>
    ensures { answer_of (line_found result) ≡ answer_of (read_pair s.now) }
{
    let (first, after_first) = read_colour(s)?;
    let (second, rest) = read_colour(decimal::after_space(after_first))?;
    if rest.is_empty() {
        Some((first, second))
    } else {
        None
    }
}

// The figures of a line in millionths.
#[derive(Clone, Copy)]
struct Six {
    d76: Int,
    d94: Int,
    d00: Int,
    l: Int,
    c: Int,
    h: Int,
}

// The figures of two samples: all weights 1, CIE94 with 45 and 15 and the first as a standard.
fn work(s: Lab, t: Lab) -> Six
    ensures { figures_text (six_list result) ≡ figures_line (lab_of s) (lab_of t) }
{
    let w = FixedWeights {
        l: 10000,
        c: 10000,
        h: 10000,
    };
    let p = Prepared::of(s);
    let q = Prepared::of(t);
    let f = difference::ciede2000::figures(w, p, q);
    Six {
        d76: Int::from(difference::cie76::cie76(s, t)),
        d94: Int::from(difference::cie94::cie94(
            w,
            Application::GraphicArts,
            Comparison::WithStandard,
            p,
            q,
        )),
        d00: Int::from(f.difference),
        l: f.parts.l,
        c: f.parts.c,
        h: f.parts.h,
    }
}

// The figures of two colours, or the refusal of the first that is refused.
fn figures(first: Decimals, second: Decimals) -> Result<Six, Refusal>
    ensures { figures_or_refusal result ≡ pair_answer (colour_read first) (colour_read second) }
{
    let s = FixedColour::of(first.l, first.a, first.b).accepted()?;
    let t = FixedColour::of(second.l, second.a, second.b).accepted()?;
    Ok(work(s, t))
}

// The line that the input has not ended yet: its first len bytes. It is too long where there is no len, or
// len is above LINE_MOST.
#[derive(Clone, Copy)]
pub struct State {
    pub line: [u8; LINE_MOST],
    pub len: Option<usize>,
}

impl State {
    // The line so far, if it is not too long.
    fn line(&self) -> Option<&[u8]>
        ensures { MatchOption result (state_held self.now ≡ too_long) (λ l. state_held self.now ≡ part l.now) }
    {
        match self.len {
            Some(len) if len <= LINE_MOST => Some(&self.line[..len]),
            _ => None,
        }
    }

    // Whether nothing was read of the line.
    fn is_empty(&self) -> bool
        ensures { IsTrue result ↔ (state_held self.now ≡ part []) }
    {
        self.len == Some(0)
    }

    // One byte more of the line.
    fn push(&mut self, b: u8)
        ensures { state_held self.new ≡ held_with (state_held self.old) b }
    {
        match self.len {
            Some(len) if len < LINE_MOST => {
                self.line[len] = b;
                self.len = Some(len + 1);
            }
            _ => self.len = None,
        }
    }

    // Starts the next line.
    fn clear(&mut self)
        ensures { state_held self.new ≡ part [] }
    {
        self.len = Some(0);
    }
}

// The figures of a line, or its refusal.
fn line_figures(state: &State) -> Result<Six, Refusal>
    ensures { figures_or_refusal result ≡ held_answer (state_held state.now) }
{
    let Some(line) = state.line() else {
        return Err(Refusal::Line);
    };
    match parse(line) {
        Some((first, second)) => figures(first, second),
        None => Err(Refusal::Line),
    }
}

// What follows writes at a place of a lent buffer, and returns the place after it.

// The six figures with one space between.
fn put_six(out: &mut [u8], at: usize, f: Six) -> usize
    requires { at + answer_most ≤ length out.old }
    ensures { Written out.old at (figures_text (six_list f)) answer_most out.new result }
{
    let i1 = decimal::put_fixed(out, at, f.d76, 6, b' ');
    let i2 = decimal::put_fixed(out, i1, f.d94, 6, b' ');
    let i3 = decimal::put_fixed(out, i2, f.d00, 6, b' ');
    let i4 = decimal::put_fixed(out, i3, f.l, 6, b' ');
    let i5 = decimal::put_fixed(out, i4, f.c, 6, b' ');
    decimal::put_fixed(out, i5, f.h, 6, b'\n')
}

// The answer of a line.
fn put_answer(state: &State, out: &mut [u8], at: usize) -> usize
    requires { at + answer_most ≤ length out.old }
    ensures { Written out.old at (held_answer (state_held state.now)) answer_most out.new result }
{
    match line_figures(state) {
        Ok(six) => put_six(out, at, six),
        Err(refusal) => decimal::put_refused(out, at, refusal.number()),
    }
}

// How far a piece of the input was read, and how many bytes were written.
#[derive(Clone, Copy)]
pub struct Progress {
    pub state: State,
    pub read: usize,
    pub written: usize,
}

// The input is read in pieces of any size: `header`, `start`, `step` for each piece, and again for
// what it leaves of a piece, and `finish`. What they write, one after the other, is the whole text.

// The text's first line.
pub fn header() -> [u8; 24]
    ensures { result ≡ text_so_far [] }
{
    *b"de76 de94 de00 dl dc dh\n"
}

// The state before the first byte of the input.
pub fn start() -> State
    ensures { state_held result ≡ state_of [] }
{
    State {
        line: [0; LINE_MOST],
        len: Some(0),
    }
}

// Reads a piece of the input and writes the answers of the lines that it ends.
pub fn step(mut state: State, chunk: &[u8], out: &mut [u8]) -> Progress
    ensures piece { Stepped (state_held state) chunk.now out.old out.new result }
    ensures whole { (input : List ℕ) → state_held state ≡ state_of input
        → Follows input (take result.read chunk.now) out.new result }
    ensures lent { chunk.exit.now ≡ chunk.entry.now }
{
    let mut written = 0;
    for (read, b) in chunk.iter().enumerate() {
        if out.len() - written < ANSWER_MOST {
            return Progress {
                state,
                read,
                written,
            };
        }
        if *b == b'\n' {
            written = put_answer(&state, out, written);
            state.clear();
        } else {
            state.push(*b);
        }
    }
    Progress {
        state,
        read: chunk.len(),
        written,
    }
}

// The answer of the last line, which no newline ended.
pub type Ending = ArrayText<ANSWER_MOST>;

// What the end of the input writes.
pub fn finish(state: State) -> Ending
    ensures last { let answer = last_text (state_held state) in
        Written (replicate answer_most 0) 0 answer answer_most result.text result.len }
    ensures bytes { take result.len result.text ≡ last_text (state_held state) }
    ensures whole { (input : List ℕ) → state_held state ≡ state_of input
        → text_of input ≡ text_so_far input ++ take result.len result.text }
{
    let mut text = [0; ANSWER_MOST];
    if state.is_empty() {
        return ArrayText::new(text, 0);
    }
    let len = put_answer(&state, &mut text, 0);
    ArrayText::new(text, len)
}
