// The verdict's rule.
ghost use Rattle.std.specs.Prelude.{◌≡◌, ◌≤◌};
ghost use Rattle.difference.specs.Verdict.{within_tolerance};

// Whether a difference in millionths is within a tolerance in 1/10,000.
pub fn within_tolerance(millionths: u64, tolerance: u64) -> bool
    requires { tolerance ≤ 1000000 }
    ensures { result ≡ within_tolerance millionths tolerance }
{
    millionths <= 100 * tolerance
}
