// Why a call is refused: each refusal by its name, and the number that callers know it by.
#![tactic(auto)]

ghost use Rattle.std.specs.Prelude.{◌≡◌};
ghost use Rattle.refusal.specs.Refusals.{number_of};

#[derive(Clone, Copy, Debug, PartialEq, Eq)]
pub enum Refusal {
    /// L, a or b of a sample is infinite or not a number.
    NotFinite = 1,
    /// L is below 0 or above 100.
    Lightness = 2,
    /// a or b is below -128 or above 128.
    Opponent = 3,
    /// A weight is not a number, below 0.5 or above 10.
    Weight = 4,
    /// The tolerance is not a number, below 0 or above 100.
    Tolerance = 5,
    /// The columns of a deck are of unequal length, or it has more than 4,096 swatches.
    DeckSize = 6,
    /// A swatch is outside the limits, or lightness falls from one place to the next.
    Swatch = 7,
    /// A line of text is not of the form.
    Line = 9,
    /// A deck file does not start with its mark.
    Mark = 10,
    /// A deck file has another version, or ends before it.
    Version = 11,
    /// A deck file's length does not fit its count.
    Length = 12,
    /// There is not room enough for a file or a deck.
    Room = 13,
    /// A keyword or a name of the lab's text is missing or unknown.
    Form = 14,
    /// A row of the lab's text is malformed.
    Row = 15,
    /// The number of rows is not the number that the text gives.
    Sets = 16,
}

impl Refusal {
    /// The number.
    pub fn number(self) -> u8
        ensures { result ≡ number_of self }
    {
        self as u8
    }
}
