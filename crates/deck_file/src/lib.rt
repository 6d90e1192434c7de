// Deck files: a deck of swatches as bytes, to carry it from one machine to another. A file is the
// mark FAN, a version, the number of swatches and 12 bytes a swatch; specs/Layout.antt has it whole.
#![tactic(auto)]

ghost use Rattle.std.specs.Prelude.{◌≡◌, ◌++◌, ℕ, ◌+◌, ◌*◌, ◌≤◌, ◌<◌, length, drop, IfOk};
ghost use Rattle.places.specs.Places.{column_of};
ghost use Rattle.refusal.specs.Refusals.{refused_with, numbered};
ghost use Rattle.buffer.specs.Writing.{Written};
ghost use Rattle.deck.specs.Deck.{columns, columns_at};
ghost use Rattle.deck_file.specs.Layout.{swatch_bytes, swatches_bytes, header_bytes, count_in, read_of};
ghost use Rattle.deck_file.specs.Refusals.{room_refusal, write_refusal, read_refusal};
ghost use Rattle.deck_file.specs.Transfers.{lent, Writes, Reads};
ghost use Rattle.deck_file.specs.Inner.{form_refusal, colour, column_in};

use deck::Swatches;
use refusal::Refusal;
use sample::FixedColour;

// What a file starts with.
const MARK: [u8; 3] = *b"FAN";

// The version that is written, and the one that is read.
const VERSION: u16 = 1;

// Where the mark, the version and the count end.
const MARK_END: usize = 3;

const VERSION_END: usize = 5;

const HEADER: usize = 7;

// The bytes of a number, and those of a swatch.
const NUMBER: usize = 4;

const SWATCH: usize = 12;

// Refusal 13 where there is not room enough.
pub fn check_room(enough: bool) -> Result<(), Refusal>
    ensures { refused_with result ≡ room_refusal enough }
{
    if enough { Ok(()) } else { Err(Refusal::Room) }
}

// ---- writing

// The mark, the version and the count.
fn put_header(file: &mut [u8], count: u16) -> usize
    requires { 7 ≤ length file.old }
    ensures { Written file.old 0 (header_bytes count) 7 file.new result }
{
    let version = buffer::put_bytes(file, 0, &MARK);
    let number = buffer::put_u16(file, version, VERSION);
    buffer::put_u16(file, number, count)
}

// A swatch.
fn put_swatch(file: &mut [u8], at: usize, l: i32, a: i32, b: i32) -> usize
    requires { at + 12 ≤ length file.old }
    ensures { Written file.old at (swatch_bytes (colour l a b)) 12 file.new result }
{
    let second = buffer::put_i32(file, at, l);
    let third = buffer::put_i32(file, second, a);
    buffer::put_i32(file, third, b)
}

// All swatches.
fn put_swatches(l: &[i32], a: &[i32], b: &[i32], file: &mut [u8], at: usize) -> usize
    requires same_len { (length a.now ≡ length l.now) × (length b.now ≡ length l.now) }
    requires room { at + 12 * length l.now ≤ length file.old }
    ensures { let n = length l.now in
        let bytes = swatches_bytes (columns_at l.now a.now b.now) n in
        Written file.old at bytes (12 * n) file.new result }
{
    let mut end = at;
    for k in 0..l.len() {
        end = put_swatch(file, end, l[k], a[k], b[k]);
    }
    end
}

// The first that applies to a write: 6, 7 or 13.
fn check_write(l: &[i32], a: &[i32], b: &[i32], room: usize) -> Result<(), Refusal>
    ensures { let deck = columns l.now a.now b.now in
        refused_with result ≡ write_refusal deck room }
{
    deck::check_deck(l, a, b)?;
    check_room(HEADER + SWATCH * l.len() <= room)
}

// Writes a deck to the front of the caller's list; the length of the file. `Writes` says all, for every call.
pub fn write(l: &[i32], a: &[i32], b: &[i32], file: &mut [u8]) -> Result<usize, Refusal>
    ensures writes { let deck = columns l.now a.now b.now in
        Writes deck file.old file.new (numbered result) }
    ensures columns { (l.exit.now ≡ l.entry.now)
        × ((a.exit.now ≡ a.entry.now) × (b.exit.now ≡ b.entry.now)) }
{
    check_write(l, a, b, file.len())?;
    let start = put_header(file, l.len() as u16);
    Ok(put_swatches(l, a, b, file, start))
}

// ---- reading

// The number of swatches that a file says it has.
fn count_in(file: &[u8]) -> usize
    requires { 7 ≤ length file.now }
    ensures { (result ≡ count_in file.now) × (result ≤ 65535) }
{
    buffer::u16_at(file, VERSION_END) as usize
}

// The first that applies to the form of a file: 10, 11 or 12.
fn check_form(file: &[u8]) -> Result<(), Refusal>
    ensures { refused_with result ≡ form_refusal file.now }
{
    let length = file.len();
    if !buffer::starts_with(file, &MARK) {
        return Err(Refusal::Mark);
    }
    if length < VERSION_END {
        return Err(Refusal::Version);
    }
    if buffer::u16_at(file, MARK_END) != VERSION {
        return Err(Refusal::Version);
    }
    if length < HEADER {
        return Err(Refusal::Length);
    }
    if length != HEADER + SWATCH * count_in(file) {
        return Err(Refusal::Length);
    }
    Ok(())
}

// The bytes of a file whose length fits its count.
#[derive(Clone, Copy)]
struct Formed<'a> {
    bytes: &'a [u8],
    ghost fits: { length bytes.now ≡ 7 + 12 * count_in bytes.now },
}

impl<'a> Swatches for Formed<'a> {
    ghost deck = { λ f. read_of f.bytes.now };

    fn is_sized(&self) -> bool {
        count_in(self.bytes) <= deck::MOST_SWATCHES
    }

    fn count(&self) -> usize {
        count_in(self.bytes)
    }

    fn colour(&self, k: usize) -> FixedColour {
        let at = HEADER + SWATCH * k;
        FixedColour {
            l: buffer::i32_at(self.bytes, at),
            a: buffer::i32_at(self.bytes, at + NUMBER),
            b: buffer::i32_at(self.bytes, at + 2 * NUMBER),
        }
    }
}

// The number of swatches, or the first that applies to a read: 10, 11, 12, 6, 7 or 13.
fn check_read(file: &[u8], l_room: usize, a_room: usize, b_room: usize) -> Result<usize, Refusal>
    ensures refusal { refused_with result ≡ read_refusal file.now l_room a_room b_room }
    ensures count { IfOk result (λ n. n ≡ count_in file.now) }
{
    check_form(file)?;
    let formed = Formed { bytes: file };
    deck::check_swatches(&formed)?;
    let n = formed.count();
    check_room((n <= l_room) & ((n <= a_room) & (n <= b_room)))?;
    Ok(n)
}

// Reads the numbers that stand 12 bytes apart, from a place on, to the front of a column.
fn read_column(file: &[u8], first: usize, n: usize, column: &mut [i32])
    requires in_file { (k : ℕ) → k < n → first + 12 * k + 4 ≤ length file.now }
    requires room { n ≤ length column.old }
    ensures { let numbers = column_of (column_in file.now first) n in
        column.new ≡ numbers ++ drop n column.old }
{
    for k in 0..n {
        column[k] = buffer::i32_at(file, first + SWATCH * k);
    }
}

// Reads a deck to the front of the caller's columns; the number of its swatches. `Reads` says all, for every call.
pub fn read(file: &[u8], l: &mut [i32], a: &mut [i32], b: &mut [i32]) -> Result<usize, Refusal>
    ensures reads { let old = lent l.old a.old b.old in
        let new = lent l.new a.new b.new in
        Reads file.now old new (numbered result) }
    ensures file { file.exit.now ≡ file.entry.now }
{
    let n = check_read(file, l.len(), a.len(), b.len())?;
    read_column(file, HEADER, n, l);
    read_column(file, HEADER + NUMBER, n, a);
    read_column(file, HEADER + 2 * NUMBER, n, b);
    Ok(n)
}
