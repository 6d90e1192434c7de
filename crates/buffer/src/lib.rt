// Bytes in a lent buffer: texts and whole numbers written one after the other, and read where they
// stand. Whole numbers stand low byte first, signed ones in two's complement.
#![tactic(auto)]

ghost use Rattle.std.specs.Prelude.{◌≡◌, [], ◌∷◌, ◌+◌, ◌≤◌, ◌<◌, length, take};
ghost use Rattle.buffer.specs.Numbers.{bytes_of, unsigned_of, signed_bytes, signed_of, field, same};
ghost use Rattle.buffer.specs.Writing.{Written};

pub mod parts;

// ---- writing at a place; each function returns the place after what it wrote

// The byte b.
pub fn put_byte(out: &mut [u8], at: usize, b: u8) -> usize
    requires { at < length out.old }
    ensures { Written out.old at (b ∷ []) 1 out.new result }
{
    out[at] = b;
    at + 1
}

// The bytes of a text.
pub fn put_bytes(out: &mut [u8], at: usize, text: &[u8]) -> usize
    requires { at + length text.now ≤ length out.old }
    ensures { let t = text.now in
        Written out.old at t (length t) out.new result }
{
    let end = at + text.len();
    out[at..end].copy_from_slice(text);
    end
}

// A number of 16 bits.
pub fn put_u16(out: &mut [u8], at: usize, n: u16) -> usize
    requires { at + 2 ≤ length out.old }
    ensures { Written out.old at (bytes_of 2 n) 2 out.new result }
{
    put_bytes(out, at, &n.to_le_bytes())
}

// A signed number of 32 bits.
pub fn put_i32(out: &mut [u8], at: usize, x: i32) -> usize
    requires { at + 4 ≤ length out.old }
    ensures { Written out.old at (signed_bytes x) 4 out.new result }
{
    put_bytes(out, at, &x.to_le_bytes())
}

// ---- reading at a place

// A number of 16 bits.
pub fn u16_at(bytes: &[u8], at: usize) -> u16
    requires { at + 2 ≤ length bytes.now }
    ensures { result ≡ unsigned_of (field at 2 bytes.now) }
{
    u16::from_le_bytes([bytes[at], bytes[at + 1]])
}

// A signed number of 32 bits.
pub fn i32_at(bytes: &[u8], at: usize) -> i32
    requires { at + 4 ≤ length bytes.now }
    ensures { result ≡ signed_of (field at 4 bytes.now) }
{
    i32::from_le_bytes([bytes[at], bytes[at + 1], bytes[at + 2], bytes[at + 3]])
}

// Whether the bytes start with a text.
pub fn starts_with(bytes: &[u8], text: &[u8]) -> bool
    ensures { let t = text.now in
        result ≡ same (take (length t) bytes.now) t }
{
    bytes.starts_with(text)
}

// Whether two texts are the same.
pub fn equal(s: &[u8], t: &[u8]) -> bool
    ensures { result ≡ same s.now t.now }
{
    s == t
}
