// Short texts without a heap.
#![tactic(auto)]

ghost use Rattle.std.specs.Prelude.{◌≡◌, ◌≤◌, length, take};

// A text of at most N bytes, kept in place: the first len bytes of the array.
#[derive(Clone, Copy)]
pub struct ArrayText<const N: usize> {
    pub text: [u8; N],
    pub len: usize,
    pub ghost fits: { len ≤ length text },
}

impl<const N: usize> ArrayText<N> {
    // The first len bytes of a buffer.
    pub fn new(text: [u8; N], len: usize) -> Self
        requires { len ≤ N }
        ensures { (result.text ≡ text.entry) × (result.len ≡ len) }
    {
        ArrayText { text, len }
    }

    // The bytes of the text.
    pub fn as_bytes(&self) -> &[u8]
        ensures { let t = self.now in result.now ≡ take t.len t.text }
    {
        &self.text[..self.len]
    }
}
