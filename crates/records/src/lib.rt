// A deck as a list of records that the caller keeps: the import of the lab's text to such a list, and
// the search of one, by its columns. For callers that lend nothing, `import_list` and `search_list` do
// the same on a list held by value.
#![tactic(auto)]

ghost use Rattle.std.specs.Prelude.{◌≡◌, take, replicate};
ghost use Rattle.refusal.specs.Refusals.{numbered};
ghost use Rattle.deck.specs.Deck.{asked, most_swatches};
ghost use Rattle.deck.specs.Answers.{found};
ghost use Rattle.deck.specs.Search.{Searches};
ghost use Rattle.swatches.specs.Swatches.{no_swatch, deck_of};
ghost use Rattle.records.specs.Records.{Imports};

use deck::{MOST_SWATCHES, SearchError};
use fixed_point::{Reading, Weights};
use refusal::Refusal;
use swatches::Swatch;

// ---- import

// Imports the lab's text to the front of the caller's records; the number of its swatches. `Imports`
// says all, for every call.
pub fn import(text: &[u8], records: &mut [Swatch]) -> Result<usize, Refusal>
    ensures imports { Imports text.now records.old records.new (numbered result) }
    ensures text { text.exit.now ≡ text.entry.now }
{
    let deck = lab_text::read(text)?;
    let n = deck.count;
    deck_file::check_room(n <= records.len())?;
    records[..n].copy_from_slice(&deck.swatches[..n]);
    Ok(n)
}

// A list of records, and what the import answered.
#[derive(Drop)]
pub struct Imported {
    pub records: [Swatch; MOST_SWATCHES],
    pub answer: Result<usize, Refusal>,
}

// Imports the lab's text to a list of its own, so that a caller needs no lent records.
pub fn import_list(text: &[u8]) -> Imported
    ensures { Imports text.now (replicate most_swatches no_swatch) result.records (numbered result.answer) }
{
    let mut records = [Swatch {
        code: 0,
        l: 0,
        a: 0,
        b: 0,
    }; MOST_SWATCHES];
    let answer = import(text, &mut records);
    Imported { records, answer }
}

// ---- search

// The places of the swatches of a lent list of records that are within a tolerance of a reading, to
// the front of the caller's list, as `deck::search` finds them in the columns of the records.
pub fn search(
    records: &[Swatch],
    reading: Reading,
    weights: Weights,
    tolerance: f32,
    places: &mut [u16],
) -> Result<usize, SearchError>
    ensures searches { let deck = deck_of records.now in
        let query = asked reading weights tolerance in
        Searches query deck places.old places.new (found result) }
    ensures records { records.exit.now ≡ records.entry.now }
{
    let n = records.len();
    let mut l = [0i32; MOST_SWATCHES];
    let mut a = [0i32; MOST_SWATCHES];
    let mut b = [0i32; MOST_SWATCHES];
    if MOST_SWATCHES < n {
        // Columns of unequal length are refused likewise.
        return deck::search(&l, &a, &b[..0], reading, weights, tolerance, places);
    }
    swatches::put_colours(records, &mut l, &mut a, &mut b);
    deck::search(
        &l[..n],
        &a[..n],
        &b[..n],
        reading,
        weights,
        tolerance,
        places,
    )
}

// The same of the first n records of a list held by value, or of the whole list where n is more than
// it has: a caller needs no lent records.
pub fn search_list(
    list: [Swatch; MOST_SWATCHES],
    n: usize,
    reading: Reading,
    weights: Weights,
    tolerance: f32,
    places: &mut [u16],
) -> Result<usize, SearchError>
    ensures { let query = asked reading weights tolerance in
        Searches query (deck_of (take n list)) places.old places.new (found result) }
{
    let records = &list[..n.min(MOST_SWATCHES)];
    search(records, reading, weights, tolerance, places)
}
