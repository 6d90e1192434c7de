// The columns of a deck: their test, their swatches as samples, and the search of those that match.
ghost use Rattle.std.specs.Prelude.{◌≡◌, true, ◌+◌, ◌-◌, ◌≤◌, ◌<◌, pos, ◌-ℤ◌, length, IfOk};
ghost use Rattle.places.specs.Places.{at, hits, rising};
ghost use Rattle.places.specs.Inner.{Split};
ghost use Rattle.refusal.specs.Refusals.{refused_with};
ghost use Rattle.sample.specs.Sample.{colour_sample};
ghost use Rattle.sample.specs.Inner.{lab_of};
ghost use Rattle.deck.specs.Deck.{columns, most_swatches, deck_refusal, match_at, match_list};
ghost use Rattle.deck.specs.Inner.{ScratchIs};

use super::MOST_SWATCHES;
use super::query::PreparedQuery;
use super::swatches::{Swatches, check_swatches};
use refusal::Refusal;
use sample::{FixedColour, Lab};
use signed::Int;

// Three columns of any lengths.
#[derive(Clone, Copy)]
struct Slices<'a> {
    l: &'a [i32],
    a: &'a [i32],
    b: &'a [i32],
}

impl<'a> Swatches for Slices<'a> {
    ghost deck = { λ s. columns s.l.now s.a.now s.b.now };

    // They are of one length, of at most 4,096.
    fn is_sized(&self) -> bool {
        let n = self.l.len();
        (self.a.len() == n) & ((self.b.len() == n) & (n <= MOST_SWATCHES))
    }

    fn count(&self) -> usize {
        self.l.len()
    }

    fn colour(&self, k: usize) -> FixedColour {
        FixedColour {
            l: self.l[k],
            a: self.a[k],
            b: self.b[k],
        }
    }
}

// Refusal 6 or 7 of a deck.
pub fn check_deck(l: &[i32], a: &[i32], b: &[i32]) -> Result<(), Refusal>
    ensures refusal { refused_with result ≡ deck_refusal (columns l.now a.now b.now) }
    ensures columns { (l.exit.now ≡ l.entry.now)
        × ((a.exit.now ≡ a.entry.now) × (b.exit.now ≡ b.entry.now)) }
{
    check_swatches(&Slices { l, a, b })
}

// The places from `from` up to `to`, which is not one of them.
#[derive(Clone, Copy)]
struct Window {
    from: usize,
    to: usize,
}

// The places whose lightness is within reach.
fn lightness_window(l: &[i32], lightness: u64, reach: u64) -> Window
    requires rises { rising (at l.now) (length l.now) ≡ true }
    requires lightness_bound { lightness ≤ 1000000 }
    requires reach_bound { reach ≤ 17500018 }
    ensures from { let low = pos (lightness + 1) -ℤ pos (reach + 1) in
        Split (at l.now) (length l.now) low result.from }
    ensures to { let high = pos (lightness + (reach + 1)) in
        Split (at l.now) (length l.now) high result.to }
{
    let beyond = reach + 1;
    let low = signed::to_i32(signed::natural_difference(lightness + 1, beyond));
    let high = signed::to_i32(Int::from(lightness + beyond));
    Window {
        from: places::first_at_least(l, low),
        to: places::first_at_least(l, high),
    }
}

// The columns of a deck that is not refused.
#[derive(Clone, Copy)]
pub struct Columns<'a> {
    slices: Slices<'a>,
    pub ghost valid: { deck_refusal (columns slices.l.now slices.a.now slices.b.now) ≡ 0 },
}

impl<'a> Columns<'a> {
    ghost use Rattle.deck.specs.InnerQuery.{query_of};
    ghost use Rattle.deck.specs.InnerColumns.{deck_in};

    // The columns, or refusal 6 or 7.
    pub fn new(l: &'a [i32], a: &'a [i32], b: &'a [i32]) -> Result<Columns<'a>, Refusal>
        ensures refusal { refused_with result ≡ deck_refusal (columns l.now a.now b.now) }
        ensures columns { IfOk result (λ d. deck_in d ≡ columns l.now a.now b.now) }
    {
        check_deck(l, a, b)?;
        let slices = Slices { l, a, b };
        Ok(Columns { slices })
    }

    // The swatch at a place.
    fn swatch(self, k: usize) -> Lab
        requires { k < length self.slices.l.now }
        ensures { lab_of result ≡ colour_sample ((deck_in self.entry).colour k) }
    {
        self.slices.colour(k).sample()
    }

    // The matches of a window, to the front of the scratch list; their number.
    fn gather(self, query: PreparedQuery, w: Window, found: &mut [u16; MOST_SWATCHES]) -> usize
        requires window { (w.from ≤ w.to) × (w.to ≤ length self.slices.l.now) }
        requires found_len { length found.old ≡ most_swatches }
        ensures { let matching = match_at (query_of query) (deck_in self.entry) in
            ScratchIs (hits matching w.from (w.to - w.from)) found.new result }
    {
        let mut n = 0;
        for k in w.from..w.to {
            if query.matches(self.swatch(k)) {
                found[n] = k as u16;
                n += 1;
            }
        }
        n
    }

    // All the matches, to the front of the scratch list; their number.
    pub fn matches(self, query: PreparedQuery, found: &mut [u16; MOST_SWATCHES]) -> usize
        requires { length found.old ≡ most_swatches }
        ensures { ScratchIs (match_list (query_of query) (deck_in self.entry)) found.new result }
    {
        let w = lightness_window(self.slices.l, query.lightness(), query.reach());
        self.gather(query, w, found)
    }
}
