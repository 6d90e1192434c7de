// The integer square root as C functions, for the static library isqrt_c: tests/checks/roots.rs calls them.
// They are no part of the C interface.
#![tactic(auto)]

ghost use Rattle.std.specs.Prelude.{◌≡◌, ◌⊎◌};
ghost use Rattle.isqrt.specs.Root.{root_of};

#[unsafe(no_mangle)]
pub extern "C" fn isqrt_c(n: u64) -> u64
    ensures { result ≡ root_of n }
{
    isqrt::isqrt(n)
}

// The root of n where the estimate is the root, and 2^64 - 1 where it misses it.
#[unsafe(no_mangle)]
pub extern "C" fn isqrt_estimate_c(n: u64) -> u64
    ensures { (result ≡ root_of n) ⊎ (result ≡ 18446744073709551615) }
{
    let root = isqrt::isqrt(n);
    if isqrt::estimate(n) == root {
        return root;
    }
    18446744073709551615
}
