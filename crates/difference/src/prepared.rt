// A sample with what depends on it alone.
ghost use Rattle.std.specs.Prelude.{◌≡◌, ◌≤◌};
ghost use Rattle.signed.specs.Inner.{int};
ghost use Rattle.sample.specs.Inner.{lab_of};
ghost use Rattle.chroma.specs.Chroma.{chroma_of};

use hue::Opponents;
use sample::Lab;

// A sample with its chroma and its quadrant, so that a search works them out once.
#[derive(Clone, Copy)]
pub struct Prepared {
    pub l: u64,
    pub ab: Opponents,
    pub chroma: u64,
    pub ghost light: { l ≤ 1000000 },
    pub ghost own: { chroma ≡ chroma_of (int ab.a) (int ab.b) },
}

impl Prepared {
    ghost use Rattle.difference.specs.Inner.{prepared_sample};

    // Works out what depends on the sample alone.
    pub fn of(s: Lab) -> Self
        ensures { prepared_sample result ≡ lab_of s }
    {
        Prepared {
            l: s.l,
            ab: Opponents::of(s.a, s.b),
            chroma: chroma::chroma(s.a, s.b),
        }
    }
}
