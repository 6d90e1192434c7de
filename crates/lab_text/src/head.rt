// The five lines before the rows.
ghost use Rattle.std.specs.Prelude.{◌≡◌, true, false, MatchOption};
ghost use Rattle.buffer.specs.Numbers.{same};
ghost use Rattle.buffer.specs.Inner.{parts_from, first_part};
ghost use Rattle.lab_text.specs.Fields.{is_names, order_of, is_sets, sets_in};
ghost use Rattle.lab_text.specs.Text.{is_head};
ghost use Rattle.lab_text.specs.Inner.{IsRead, IsHead};

use super::fields;

// At which place of a row each field stands.
#[derive(Clone, Copy)]
pub struct Order {
    pub code: usize,
    pub l: usize,
    pub a: usize,
    pub b: usize,
}

// Reads line 2, the four names.
fn read_names(line: &[u8]) -> Option<Order>
    ensures { IsRead (is_names line.now) (order_of line.now) result }
{
    let words = fields::read_words(line)?;
    let code = words.place_of(b"SAMPLE_ID")?;
    let l = words.place_of(b"LAB_L")?;
    let a = words.place_of(b"LAB_A")?;
    let b = words.place_of(b"LAB_B")?;
    Some(Order { code, l, a, b })
}

// Reads line 4, NUMBER_OF_SETS with its number.
fn read_sets(line: &[u8]) -> Option<usize>
    ensures { IsRead (is_sets line.now) (sets_in line.now) result }
{
    let (name, after_name) = buffer::parts::cut(line, 0, b' ');
    let (number, after_number) = buffer::parts::cut(line, after_name, b' ');
    let two = (after_name <= line.len()) & (line.len() < after_number);
    let named = buffer::equal(name, b"NUMBER_OF_SETS");
    if !(two & named) {
        return None;
    }
    let sets = fields::read_number(number, 5)?;
    Some(sets as usize)
}

// Whether the line that starts at a place is this keyword.
fn line_is(text: &[u8], at: usize, keyword: &[u8]) -> bool
    ensures { result ≡ same (first_part (parts_from 10 text.now at)) keyword.now }
{
    buffer::equal(buffer::parts::part(text, at, b'\n'), keyword)
}

// What the five lines say, and where the rows start.
#[derive(Clone, Copy)]
pub struct Head {
    pub order: Order,
    pub sets: usize,
    pub rows: usize,
}

// Reads the five lines.
pub fn read_head(text: &[u8]) -> Option<Head>
    ensures { let right = is_head text.now in
        MatchOption result (right ≡ false) (λ h. (right ≡ true) × IsHead text.now h) }
{
    let second = buffer::parts::next_part(text, 0, b'\n');
    let third = buffer::parts::next_part(text, second, b'\n');
    let fourth = buffer::parts::next_part(text, third, b'\n');
    let fifth = buffer::parts::next_part(text, fourth, b'\n');
    let rows = buffer::parts::next_part(text, fifth, b'\n');
    let names = buffer::parts::part(text, second, b'\n');
    let sets = buffer::parts::part(text, fourth, b'\n');
    let format = line_is(text, 0, b"BEGIN_DATA_FORMAT");
    let format_end = line_is(text, third, b"END_DATA_FORMAT");
    let data = line_is(text, fifth, b"BEGIN_DATA");
    if !(format & format_end & data) {
        return None;
    }
    let order = read_names(names)?;
    let sets = read_sets(sets)?;
    Some(Head { order, sets, rows })
}
