// Reads the colour lab's text from standard input, imports it to a list of records, and writes a line
// for each swatch in the order of the deck, `CODE L a b`, or `refused N`.
#![tactic(auto)]

ghost use Rattle.std.specs.Prelude.{◌≡◌, length};

use std::io;
use std::io::Read;
use swatches::Swatch;

// Six times the longest text that can be accepted.
const TEXT_MOST: usize = 1048576;

// Room for the text.
fn text_buffer() -> [u8; TEXT_MOST]
    ensures { 1048576 ≡ length result }
{
    [0u8; TEXT_MOST]
}

// Whether the input goes on.
fn goes_on<R: Read>(input: &mut R) -> bool {
    let mut more = [0u8; 1];
    0 < input::read_full(input, &mut more)
}

// Writes the first n swatches of a list, until one cannot be written.
fn write_list(rt: &impl Print, list: &[Swatch], n: usize) -> io::Result<()> {
    for s in list.iter().take(n) {
        rt.write_all(swatch_text::swatch_line(*s).as_bytes())?;
    }
    Ok(())
}

// Imports a text and writes what it lists.
fn list_text(rt: &impl Print, text: &[u8]) -> io::Result<()> {
    let mut list = swatches::no_swatches();
    match records::import(text, &mut list) {
        Ok(n) => write_list(rt, &list, n),
        Err(refusal) => rt.write_all(swatch_text::refused_line(refusal.number()).as_bytes()),
    }
}

// An input that cannot be read to its end counts as one that ends there: without its last line it is
// refused.
fn main(rt: HostRuntime) -> io::Result<()> {
    let mut input = rt.stdin();
    let mut text = text_buffer();
    let n = input::read_full(&mut input, &mut text);
    if n == TEXT_MOST {
        if goes_on(&mut input) {
            return eprintln!(rt;
                "lab_import: the text is longer than 1,048,576 bytes, six times what 4,096 swatches take"
            );
        }
    }
    list_text(&rt, &text[..n])
}
