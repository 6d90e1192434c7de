// What a search of a deck needs that does not depend on colour: the first place whose value reaches a
// bound, in a column or in a lane, and the copy of the found places. A lane is a slice, of which every
// stride-th number counts.
#![tactic(auto)]

ghost use Rattle.std.specs.Prelude.{◌≡◌, true, ◌++◌, ◌*◌, ◌≤◌, ◌<◌, length, take, drop};
ghost use Rattle.places.specs.Places.{at, rising};
ghost use Rattle.places.specs.Inner.{lane_at, Spans, Split};

// The first place of a rising column whose value is at least the bound, or its length where there is
// none.
pub fn first_at_least(column: &[i32], bound: i32) -> usize
    requires { rising (at column.now) (length column.now) ≡ true }
    ensures { Split (at column.now) (length column.now) bound result }
{
    column.partition_point(|x| *x < bound)
}

// What a lane holds at a place.
pub fn entry(lane: &[i32], stride: usize, k: usize) -> i32
    requires { k * stride < length lane.now }
    ensures { result ≡ lane_at lane.now stride k }
{
    lane[k * stride]
}

// The first of a rising lane's n places whose value is at least the bound, or n where there is none, by
// binary search: the answer is lo, hi or between them.
pub fn first_in_lane(lane: &[i32], stride: usize, n: usize, bound: i32) -> usize
    requires spans { Spans lane.now stride n }
    requires rises { rising (lane_at lane.now stride) n ≡ true }
    ensures { Split (lane_at lane.now stride) n bound result }
{
    let mut lo = 0;
    let mut hi = n;
    while lo < hi {
        let mid = lo + (hi - lo) / 2;
        if entry(lane, stride, mid) < bound {
            lo = mid + 1;
        } else {
            hi = mid;
        }
    }
    lo
}

// Copies the first n of the found places to the front of the caller's list.
pub fn copy_front(found: &[u16], n: usize, places: &mut [u16])
    requires in_found { n ≤ length found.now }
    requires room { n ≤ length places.old }
    ensures { places.new ≡ take n found.now ++ drop n places.old }
{
    places[..n].copy_from_slice(&found[..n]);
}
