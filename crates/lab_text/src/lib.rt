// The colour lab's text, of CGATS form: what is refused of it, and the swatches that it lists, put in
// rising lightness. specs/Text.antt has the form line by line.
#![tactic(auto)]

ghost use Rattle.std.specs.Prelude.{◌≡◌, IfOk};
ghost use Rattle.refusal.specs.Refusals.{refused_with, numbered};
ghost use Rattle.lab_text.specs.Text.{text_refusal};
ghost use Rattle.lab_text.specs.Imports.{IsLabDeck, lent, Imports};

mod fields;
mod head;
mod rows;

use refusal::Refusal;
use swatches::Swatch;

// The swatches of a text, in rising lightness, at the front of the list.
#[derive(Drop)]
pub struct LabDeck {
    pub count: usize,
    pub swatches: [Swatch; deck::MOST_SWATCHES],
}

// The deck of a text, or the first that applies of 14, 15, 16, 6 and 7.
pub fn read(text: &[u8]) -> Result<LabDeck, Refusal>
    ensures refusal { refused_with result ≡ text_refusal text.now }
    ensures deck { IfOk result (λ d. IsLabDeck text.now d) }
{
    let head = head::read_head(text).ok_or(Refusal::Form)?;
    let table = rows::read_rows(text, head.rows, head.order);
    table.check(head.sets)?;
    let mut swatches = swatches::no_swatches();
    swatches::by_lightness(&table.swatches[..table.count], &mut swatches);
    Ok(LabDeck {
        count: table.count,
        swatches,
    })
}

// Imports the lab's text to the fronts of the caller's columns; the number of its swatches. `Imports`
// says all, for every call.
pub fn import(
    text: &[u8],
    code: &mut [u32],
    l: &mut [i32],
    a: &mut [i32],
    b: &mut [i32],
) -> Result<usize, Refusal>
    ensures imports { let old = lent code.old l.old a.old b.old in
        let new = lent code.new l.new a.new b.new in
        Imports text.now old new (numbered result) }
    ensures text { text.exit.now ≡ text.entry.now }
{
    let deck = read(text)?;
    let n = deck.count;
    let enough = (n <= code.len()) & ((n <= l.len()) & ((n <= a.len()) & (n <= b.len())));
    deck_file::check_room(enough)?;
    let swatches = &deck.swatches[..n];
    swatches::put_codes(swatches, code);
    swatches::put_colours(swatches, l, a, b);
    Ok(n)
}
