// The rows, up to the first END_DATA.
ghost use Rattle.std.specs.Prelude.{◌≡◌};
ghost use Rattle.refusal.specs.Refusals.{refused_with};
ghost use Rattle.buffer.specs.Inner.{parts_from};
ghost use Rattle.lab_text.specs.Fields.{is_row, row_in};
ghost use Rattle.lab_text.specs.Inner.{IsRead, OrderIn, TableRead, table_refusal};

use super::fields;
use super::head::Order;
use refusal::Refusal;
use swatches::Swatch;

// Reads a row whose fields stand in this order.
fn read_row(line: &[u8], o: Order) -> Option<Swatch>
    requires { OrderIn o }
    ensures { IsRead (is_row o line.now) (row_in o line.now) result }
{
    let words = fields::read_words(line)?;
    let code = fields::read_code(words.all[o.code])?;
    let l = fields::read_value(words.all[o.l])?;
    let a = fields::read_value(words.all[o.a])?;
    let b = fields::read_value(words.all[o.b])?;
    Some(Swatch { code, l, a, b })
}

// What was found: whether END_DATA ends the text, whether each line before it is a row, whether each
// swatch is within the limits, how many rows there are, and their first 4,096 swatches.
#[derive(Drop)]
pub struct Table {
    pub ended: bool,
    pub right: bool,
    pub within: bool,
    pub count: usize,
    pub swatches: [Swatch; deck::MOST_SWATCHES],
}

impl Table {
    // The first that applies of 14, 15, 16, 6 and 7 to a text whose first five lines are right, with the
    // number of rows that they give.
    #[tactic(auto, unfolding(crate::specs::Inner::table_refusal, refusal::specs::Refusals::first_refusal))]
    pub fn check(&self, sets: usize) -> Result<(), Refusal>
        ensures { let t = self.now in
            refused_with result ≡ table_refusal t.ended t.right t.count sets t.within }
    {
        if !self.ended {
            return Err(Refusal::Form);
        }
        if !self.right {
            return Err(Refusal::Row);
        }
        if self.count != sets {
            return Err(Refusal::Sets);
        }
        if deck::MOST_SWATCHES < self.count {
            return Err(Refusal::DeckSize);
        }
        if !self.within {
            return Err(Refusal::Swatch);
        }
        Ok(())
    }
}

// Reads the rows from a place on. Not built into its caller, so that its list is off the stack while the
// rows are sorted.
#[inline(never)]
pub fn read_rows(text: &[u8], first: usize, o: Order) -> Table
    requires { OrderIn o }
    ensures { TableRead o (parts_from 10 text.now first) result }
{
    let mut swatches = swatches::no_swatches();
    let mut right = true;
    let mut within = true;
    let mut count = 0;
    let mut at = first;
    while at <= text.len() {
        let end = buffer::parts::part_end(text, at, b'\n');
        let line = &text[at..end];
        at = end + 1;
        if buffer::equal(line, b"END_DATA") {
            return Table {
                ended: at == text.len(),
                right,
                within,
                count,
                swatches,
            };
        }
        match read_row(line, o) {
            Some(swatch) => {
                within &= swatches::is_within(swatch);
                if count < deck::MOST_SWATCHES {
                    swatches[count] = swatch;
                }
            }
            None => right = false,
        }
        count += 1;
    }
    Table {
        ended: false,
        right,
        within,
        count,
        swatches,
    }
}
