// Bytes in parts: what stands between two bytes of one kind, such as the lines between newlines and
// the words between spaces.
ghost use Rattle.std.specs.Prelude.{◌≡◌, ◌≤◌, length, drop};
ghost use Rattle.buffer.specs.Inner.{parts_from, first_part, PartEnds};

// The place of the first b from a place on, or the end of the bytes.
pub fn part_end(bytes: &[u8], at: usize, b: u8) -> usize
    requires { at ≤ length bytes.now }
    ensures { PartEnds b bytes.now at result }
{
    for i in at..bytes.len() {
        if bytes[i] == b {
            return i;
        }
    }
    bytes.len()
}

// Both in one go: the part that starts at a place, and the place where the next part starts.
pub fn cut<'a>(bytes: &'a [u8], at: usize, b: u8) -> (&'a [u8], usize)
    ensures part { result.0.now ≡ first_part (parts_from b bytes.now at) }
    ensures next { parts_from b bytes.now result.1 ≡ drop 1 (parts_from b bytes.now at) }
{
    if at <= bytes.len() {
        let end = part_end(bytes, at, b);
        return (&bytes[at..end], end + 1);
    }
    (&bytes[..0], at)
}

// The part that starts at a place, or no bytes where the place is past the end.
pub fn part<'a>(bytes: &'a [u8], at: usize, b: u8) -> &'a [u8]
    ensures { result.now ≡ first_part (parts_from b bytes.now at) }
{
    cut(bytes, at, b).0
}

// The place where the next part starts, which is past the end where there is none.
pub fn next_part(bytes: &[u8], at: usize, b: u8) -> usize
    ensures { parts_from b bytes.now result ≡ drop 1 (parts_from b bytes.now at) }
{
    cut(bytes, at, b).1
}
