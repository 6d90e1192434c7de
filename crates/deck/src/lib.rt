// A search of a deck of swatches for those within a tolerance of a reading. A deck is three lent
// columns, L, a and b, in 1/10,000, sorted by lightness, so that only a window of it is looked at.
#![tactic(auto)]

ghost use Rattle.std.specs.Prelude.{◌≡◌, ◌≤◌, length, take};
ghost use Rattle.deck.specs.declared.SearchError.TheVariants.{Refused};
ghost use Rattle.deck.specs.Deck.{columns, asked};
ghost use Rattle.deck.specs.Answers.{found, found_of, contents_of};
ghost use Rattle.deck.specs.Search.{Searches};

use columns::Columns;
use fixed_point::{Reading, Weights};
use query::PreparedQuery;
use refusal::Refusal;

mod columns;
mod query;
mod swatches;

pub use columns::check_deck;
pub use swatches::{Swatches, check_swatches};

// The most swatches of a deck.
pub const MOST_SWATCHES: usize = 4096;

// Why a search lists no matches.
#[derive(Clone, Copy, Debug, PartialEq, Eq)]
pub enum SearchError {
    Refused(Refusal),
    /// The list has room for fewer matches than there are, which is refusal 8: the number that it needs.
    Short(usize),
}

impl From<Refusal> for SearchError {
    ghost from_gives = { λ refusal e. e ≡ Refused refusal };

    fn from(refusal: Refusal) -> SearchError {
        SearchError::Refused(refusal)
    }
}

// Copies n matches to the caller's list where there is room for them.
fn answer(
    matches: &[u16; MOST_SWATCHES],
    n: usize,
    places: &mut [u16],
) -> Result<usize, SearchError>
    requires { n ≤ length matches.now }
    ensures answer { found result ≡ found_of 0 (take n matches.now) (length places.old) }
    ensures contents { places.new ≡ contents_of 0 (take n matches.now) places.old }
{
    let room = places.len();
    if n <= room {
        places::copy_front(matches, n, places);
        return Ok(n);
    }
    Err(SearchError::Short(n))
}

// The places of the swatches within a tolerance of a reading, to the front of the caller's list; their number.
// Swatches are sample 1, the reading sample 2; places count from 0, and equal swatches are each
// listed. `Searches` says all, for every call.
#[tactic(auto, using(crate::proofs::DeckLaws::refused_steps))]
pub fn search(
    l: &[i32],
    a: &[i32],
    b: &[i32],
    reading: Reading,
    weights: Weights,
    tolerance: f32,
    places: &mut [u16],
) -> Result<usize, SearchError>
    ensures searches { let deck = columns l.now a.now b.now in
        let query = asked reading weights tolerance in
        Searches query deck places.old places.new (found result) }
    ensures columns { (l.exit.now ≡ l.entry.now)
        × ((a.exit.now ≡ a.entry.now) × (b.exit.now ≡ b.entry.now)) }
{
    let query = PreparedQuery::new(reading, weights, tolerance)?;
    let deck = Columns::new(l, a, b)?;
    let mut matches = [0u16; MOST_SWATCHES];
    let n = deck.matches(query, &mut matches);
    answer(&matches, n, places)
}
