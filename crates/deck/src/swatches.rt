// The swatches of a deck, however it is kept: their limits and their order.
ghost use Rattle.std.specs.Prelude.{◌≡◌, true, ◌<◌};
ghost use Rattle.places.specs.Places.{every};
ghost use Rattle.refusal.specs.Refusals.{refused_with};
ghost use Rattle.sample.specs.Inner.{colour_of};
ghost use Rattle.deck.specs.Deck.{Deck, deck_refusal};
ghost use Rattle.deck.specs.Inner.{swatch_in_order};

use refusal::Refusal;
use sample::FixedColour;

// What keeps a deck.
pub trait Swatches {
    // The deck that it keeps.
    ghost deck: { Self → Deck };

    // Whether the size is in order.
    fn is_sized(&self) -> bool
        ensures { result ≡ (deck self.now).sized };

    // How many there are.
    fn count(&self) -> usize
        ensures { result ≡ (deck self.now).count };

    // The colour at a place.
    fn colour(&self, k: usize) -> FixedColour
        requires sized { (deck self.now).sized ≡ true }
        requires in_deck { k < (deck self.now).count }
        ensures { colour_of result ≡ (deck self.now).colour k };
}

// Whether each swatch is within the limits, and no darker than the one before it. The walk has no branch and
// no way out before its end, so that several swatches are tested at once.
fn are_in_order<S: Swatches>(swatches: &S) -> bool
    requires { (S.deck swatches.now).sized ≡ true }
    ensures { let deck = S.deck swatches.now in
        result ≡ every (swatch_in_order deck) deck.count }
{
    let mut orderly = true;
    let mut before = 0;
    for k in 0..swatches.count() {
        let colour = swatches.colour(k);
        orderly = orderly & ((before <= colour.l) & colour.is_within());
        before = colour.l;
    }
    orderly
}

// Refusal 6 or 7 of a deck.
pub fn check_swatches<S: Swatches>(swatches: &S) -> Result<(), Refusal>
    ensures { refused_with result ≡ deck_refusal (S.deck swatches.now) }
{
    if !swatches.is_sized() {
        return Err(Refusal::DeckSize);
    }
    if !are_in_order(swatches) {
        return Err(Refusal::Swatch);
    }
    Ok(())
}
