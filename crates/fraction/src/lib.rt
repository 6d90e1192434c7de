// Products of whole numbers and fractions, for estimates.
#![tactic(auto)]

ghost use Rattle.std.specs.Prelude.{◌≡◌, ◌*◌, ◌/◌, ◌^◌, ◌≤◌, ◌<◌};

// x × t, with t in 1/65,536, from 0 to 1.
pub fn times(x: u64, t: u64) -> u64
    requires { (x < 2 ^ 48) × (t ≤ 65536) }
    ensures is { result ≡ x * t / 65536 }
    ensures most { result ≤ x }
{
    x * t / 65536
}
