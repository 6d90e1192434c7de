// Whole numbers with a sign: a sign and a size, of which each function says what it is in ℤ.
// Sums and products of such numbers are proved as unsigned ones are, by the bounds of their sizes.
#![tactic(auto)]

ghost use Rattle.std.specs.Prelude.{◌≡◌, cond, ◌+◌, ◌*◌, ◌/◌, ◌^◌, ◌<◌, eqb, pos, neg_ℤ, nat_abs, ◌+ℤ◌, ◌-ℤ◌, ◌*ℤ◌};
ghost use Rattle.std.specs.Int.Signed.{lt_z, quot_z};
ghost use Rattle.signed.specs.Inner.{int, Exactly, Within, Apart, Size};

// n, or -n where neg is true. Zero may carry either sign.
#[derive(Clone, Copy)]
pub struct Int {
    pub neg: bool,
    pub n: u64,
}

impl From<u64> for Int {
    ghost from_gives = { λ n r. Exactly (pos n) n r };

    fn from(n: u64) -> Int {
        Int { neg: false, n }
    }
}

// -a.
fn negated(a: Int) -> Int
    ensures { Exactly (neg_ℤ (int a)) a.n result }
{
    Int {
        neg: !a.neg,
        n: a.n,
    }
}

// a times b.
pub fn product(a: Int, b: Int) -> Int
    requires { a.n * b.n < 2 ^ 64 }
    ensures { Exactly (int a *ℤ int b) (a.n * b.n) result }
{
    Int {
        neg: a.neg != b.neg, // below 0 where the signs differ
        n: a.n * b.n,
    }
}

// a times k.
pub fn scaled(a: Int, k: u64) -> Int
    requires { a.n * k < 2 ^ 64 }
    ensures { Exactly (int a *ℤ pos k) (a.n * k) result }
{
    Int {
        neg: a.neg,
        n: a.n * k,
    }
}

// x where t is true, else y: a choice of two values, for which no branch is needed.
pub fn pick<T: Copy>(t: bool, x: T, y: T) -> T
    ensures { result ≡ cond t x y }
{
    if t { x } else { y }
}

// x - y, which may be below 0: no branch, since signs are as good as random.
pub fn natural_difference(x: u64, y: u64) -> Int
    ensures { Apart x y result }
{
    Int {
        neg: x < y,
        n: x.abs_diff(y),
    }
}

// a + b, in the same way: where the signs differ, the sign is that of the larger.
pub fn sum(a: Int, b: Int) -> Int
    requires { a.n + b.n < 2 ^ 64 }
    ensures { Within (int a +ℤ int b) (a.n + b.n) result }
{
    let apart = natural_difference(a.n, b.n);
    let differ = a.neg != b.neg;
    let n = if differ { apart.n } else { a.n + b.n };
    Int {
        neg: a.neg != (differ & apart.neg),
        n,
    }
}

// a - b.
pub fn difference(a: Int, b: Int) -> Int
    requires { a.n + b.n < 2 ^ 64 }
    ensures { Within (int a -ℤ int b) (a.n + b.n) result }
{
    sum(a, negated(b))
}

// a / k, rounded toward zero.
pub fn divided(a: Int, k: u64) -> Int
    requires { 0 < k }
    ensures { Exactly (quot_z (int a) (pos k)) (a.n / k) result }
{
    Int {
        neg: a.neg,
        n: a.n / k,
    }
}

// The size of a, without its sign.
pub fn size(a: Int) -> u64
    ensures { Size a result }
{
    a.n
}

// Whether a is below 0.
pub fn is_negative(a: Int) -> bool
    ensures { result ≡ lt_z (int a) (pos 0) }
{
    a.neg & (0 < a.n)
}

// Whether a is above 0.
pub fn is_positive(a: Int) -> bool
    ensures { result ≡ lt_z (pos 0) (int a) }
{
    !a.neg & (0 < a.n)
}

// Whether a is 0, with either sign.
pub fn is_zero(a: Int) -> bool
    ensures { result ≡ eqb (nat_abs (int a)) 0 }
{
    a.n == 0
}

impl From<i64> for Int {
    ghost from_gives = { λ x r. Exactly x (nat_abs x) r };

    fn from(x: i64) -> Int {
        Int {
            neg: x < 0,
            n: x.unsigned_abs(),
        }
    }
}

// a as a machine integer.
pub fn to_i64(a: Int) -> i64
    requires { a.n < 2 ^ 63 }
    ensures { result ≡ int a }
{
    if a.neg {
        return 0 - (a.n as i64);
    }
    a.n as i64
}

impl From<i32> for Int {
    ghost from_gives = { λ x r. Exactly x (nat_abs x) r };

    fn from(x: i32) -> Int {
        Int::from(i64::from(x))
    }
}

// a as a machine integer.
pub fn to_i32(a: Int) -> i32
    requires { a.n < 2 ^ 31 }
    ensures { result ≡ int a }
{
    to_i64(a) as i32
}
