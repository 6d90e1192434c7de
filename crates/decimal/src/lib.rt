// Decimals as text, in ASCII: read into whole numbers of 1/10,000, and written from whole numbers of
// 10^-places.
#![tactic(auto)]

ghost use Rattle.std.specs.Prelude.{◌≡◌, true, false, [], ◌∷◌, ◌++◌, ◌+◌, ◌^◌, ◌≤◌, ◌<◌, length, IfSome, MatchOption};
ghost use Rattle.signed.specs.Inner.{int};
ghost use Rattle.buffer.specs.Writing.{Written};
ghost use Rattle.decimal.specs.Reading.{starts, after, digit_first, run_of, whole_run, decimal_of, after_space};
ghost use Rattle.decimal.specs.Writing.{last_digits, digits_of, minus_of, fixed_text, refused_text};
ghost use Rattle.decimal.specs.Inner.{digit_count, decimal_found, IsRun};

use signed::Int;

// A run of digits: the number that they make, how many they are, and the bytes after them.
#[derive(Clone, Copy)]
pub struct Digits<'a> {
    pub value: u64,
    pub count: usize,
    pub rest: &'a [u8],
}

// The bytes after the byte b, if they start with it.
fn after(s: &[u8], b: u8) -> Option<&[u8]>
    ensures { MatchOption result (starts b s.now ≡ false) (λ rest. (starts b s.now ≡ true) × (rest.now ≡ after s.now)) }
{
    match s.split_first() {
        Some((first, rest)) if *first == b => Some(rest),
        _ => None,
    }
}

// The bytes after the space that they start with, and none where they start with no space.
pub fn after_space(s: &[u8]) -> &[u8]
    ensures { result.now ≡ after_space s.now }
{
    after(s, b' ').unwrap_or(&[])
}

// The digit that the bytes start with, and the bytes after it.
fn first_digit(s: &[u8]) -> Option<(u64, &[u8])>
    ensures { MatchOption result (10 ≤ digit_first s.now) (λ p. (p.0 ≡ digit_first s.now) × (p.0 < 10) × (p.1.now ≡ after s.now)) }
{
    match s.split_first() {
        Some((b @ b'0'..=b'9', rest)) => Some((u64::from(*b - b'0'), rest)),
        _ => None,
    }
}

// The digits that the bytes start with, at most `most` of them. There may be none.
pub fn run(s: &[u8], most: usize) -> Digits<'_>
    requires { most ≤ 19 }
    ensures { IsRun most (run_of most s.now) result }
{
    let mut value = 0;
    let mut rest = s;
    for count in 0..most {
        let Some((digit, more)) = first_digit(rest) else {
            return Digits { value, count, rest };
        };
        value = 10 * value + digit;
        rest = more;
    }
    Digits {
        value,
        count: most,
        rest,
    }
}

// The digits that the bytes start with, at most `most` of them, if there are any.
pub fn read_digits(s: &[u8], most: usize) -> Option<Digits<'_>>
    requires { most ≤ 19 }
    ensures { let x = run_of most s.now in
        MatchOption result (x.count ≡ 0) (λ d. IsRun most x d × (0 < d.count)) }
{
    let d = run(s, most);
    if d.count == 0 { None } else { Some(d) }
}

// A decimal without its minus, with the sign that it has, and the bytes after it.
fn read_size(s: &[u8], neg: bool) -> Option<(Int, &[u8])>
    ensures value { decimal_found result ≡ whole_run neg (run_of 3 s.now) }
    ensures size { IfSome result (λ p. p.0.n < 10000000) }
{
    let whole = read_digits(s, 3)?;
    let n = whole.value * 10000;
    let Some(decimals) = after(whole.rest, b'.') else {
        return Some((Int { neg, n }, whole.rest));
    };
    let part = read_digits(decimals, 4)?;
    let n = n + part.value * 10u64.pow((4 - part.count) as u32);
    Some((Int { neg, n }, part.rest))
}

// The decimal that the bytes start with, in 1/10,000, and the bytes after it.
pub fn read_decimal(s: &[u8]) -> Option<(Int, &[u8])>
    ensures value { decimal_found result ≡ decimal_of s.now }
    ensures size { IfSome result (λ p. p.0.n < 10000000) }
{
    match after(s, b'-') {
        Some(size) => read_size(size, true),
        None => read_size(s, false),
    }
}

// What follows writes at a place of a lent buffer, and returns the place after it.

// The last count digits of n.
fn put_last_digits(out: &mut [u8], at: usize, count: usize, n: u64) -> usize
    requires { at + count ≤ length out.old }
    ensures { Written out.old at (last_digits count n) count out.new result }
{
    let mut rest = n;
    for i in (0..count).rev() {
        out[at + i] = b'0' + (rest % 10) as u8;
        rest /= 10;
    }
    at + count
}

// How many digits n has.
fn digit_count(n: u64) -> usize
    ensures is { result ≡ digit_count n }
    ensures most { result ≤ 20 }
{
    match n.checked_ilog10() {
        Some(log) => log as usize + 1,
        None => 1,
    }
}

// The minus of a number below 0.
fn put_minus(out: &mut [u8], at: usize, v: Int) -> usize
    requires { at < length out.old }
    ensures { Written out.old at (minus_of (int v)) 1 out.new result }
{
    // zero has no minus
    if v.neg && v.n != 0 {
        buffer::put_byte(out, at, b'-')
    } else {
        at
    }
}

// v of 10^-places with so many decimals, and the byte `end`.
pub fn put_fixed(out: &mut [u8], at: usize, v: Int, places: usize, end: u8) -> usize
    requires places_bound { places ≤ 6 }
    requires room { at + 23 ≤ length out.old }
    ensures { Written out.old at (fixed_text places (int v) ++ (end ∷ [])) 23 out.new result }
{
    let whole = v.n / 10u64.pow(places as u32);
    let first = put_minus(out, at, v);
    let point = put_last_digits(out, first, digit_count(whole), whole);
    let decimals = buffer::put_byte(out, point, b'.');
    let last = put_last_digits(out, decimals, places, v.n);
    buffer::put_byte(out, last, end)
}

// n, and the byte `end`.
pub fn put_number(out: &mut [u8], at: usize, n: u64, end: u8) -> usize
    requires { at + 21 ≤ length out.old }
    ensures { Written out.old at (digits_of n ++ (end ∷ [])) 21 out.new result }
{
    let last = put_last_digits(out, at, digit_count(n), n);
    buffer::put_byte(out, last, end)
}

// `refused`, n and a newline.
pub fn put_refused(out: &mut [u8], at: usize, n: u8) -> usize
    requires { at + 29 ≤ length out.old }
    ensures { Written out.old at (refused_text n) 29 out.new result }
{
    let number = buffer::put_bytes(out, at, b"refused ");
    put_number(out, number, n as u64, b'\n')
}
