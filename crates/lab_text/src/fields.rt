// Lines of four words, and words that are numbers.
ghost use Rattle.std.specs.Prelude.{◌≡◌, false, ◌≤◌, ◌<◌, ◌^◌, eqb, length, FitsSigned, MatchOption, IfSome};
ghost use Rattle.std.specs.Int.{w32};
ghost use Rattle.lab_text.specs.Fields.{words_of, is_number, number_in, is_code, is_value, value_in, place_of};
ghost use Rattle.lab_text.specs.Inner.{texts, IsRead};

// The words of a row, or of line 2.
pub const WORDS: usize = 4;

// Reads a word that is a number of at most so many digits.
pub fn read_number(word: &[u8], most: usize) -> Option<u64>
    requires { most ≤ 10 }
    ensures is { IsRead (is_number most word.now) (number_in most word.now) result }
    ensures small { IfSome result (λ n. n < 10 ^ most) }
{
    let d = decimal::read_digits(word, most)?;
    if d.rest.is_empty() {
        Some(d.value)
    } else {
        None
    }
}

// Reads a SAMPLE_ID.
pub fn read_code(word: &[u8]) -> Option<u32>
    ensures { IsRead (is_code word.now) (number_in 10 word.now) result }
{
    u32::try_from(read_number(word, 10)?).ok()
}

// Reads a decimal, in 1/10,000.
pub fn read_value(word: &[u8]) -> Option<i32>
    ensures is { IsRead (is_value word.now) (value_in word.now) result }
    ensures fits { IfSome result (FitsSigned w32) }
{
    let (value, rest) = decimal::read_decimal(word)?;
    if rest.is_empty() {
        Some(signed::to_i32(value))
    } else {
        None
    }
}

// The words of a line that has four.
#[derive(Clone, Copy)]
pub struct Words<'a> {
    pub all: [&'a [u8]; WORDS],
}

// Reads the words of a line that has four.
pub fn read_words(line: &[u8]) -> Option<Words<'_>>
    ensures { let ws = words_of line.now in
        MatchOption result (eqb (length ws) 4 ≡ false) (λ r. (length ws ≡ 4) × (texts r.all ≡ ws)) }
{
    let (first, after_first) = buffer::parts::cut(line, 0, b' ');
    let (second, after_second) = buffer::parts::cut(line, after_first, b' ');
    let (third, after_third) = buffer::parts::cut(line, after_second, b' ');
    let (fourth, after_fourth) = buffer::parts::cut(line, after_third, b' ');
    let four = (after_third <= line.len()) & (line.len() < after_fourth);
    if !four {
        return None;
    }
    let all = [first, second, third, fourth];
    Some(Words { all })
}

impl Words<'_> {
    // Where a name stands first among the words.
    pub fn place_of(&self, name: &[u8]) -> Option<usize>
        requires { length self.now.all ≡ 4 }
        ensures { let k = place_of name.now (texts self.now.all) in
            MatchOption result (k ≡ 4) (λ r. (r ≡ k) × (r < 4)) }
    {
        for (k, word) in self.all.iter().enumerate() {
            if buffer::equal(word, name) {
                return Some(k);
            }
        }
        None
    }
}
