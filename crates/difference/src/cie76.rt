// CIE76.
ghost use Rattle.sample.specs.Inner.{lab_of};
ghost use Rattle.difference.specs.Cie76.{cie76_of};
ghost use Rattle.difference.specs.Inner.{Millionths};

use sample::Lab;

// CIE76 of two samples, in millionths.
pub fn cie76(s: Lab, t: Lab) -> u64
    ensures { Millionths (cie76_of (lab_of s) (lab_of t)) result }
{
    let l = signed::natural_difference(t.l, s.l);
    let a = signed::difference(t.a, s.a);
    let b = signed::difference(t.b, s.b);
    isqrt::isqrt(10000 * super::parts::sum_of_squares(l, a, b))
}
