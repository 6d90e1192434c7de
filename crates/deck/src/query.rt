// A query in 1/10,000, and which swatches match it.
ghost use Rattle.std.specs.Prelude.{◌≡◌, ◌+◌, ◌*◌, ◌/◌, ◌≤◌, IfOk};
ghost use Rattle.refusal.specs.Refusals.{refused_with};
ghost use Rattle.sample.specs.Inner.{lab_of, WeightsIn};
ghost use Rattle.difference.specs.Inner.{prepared_sample};
ghost use Rattle.near.specs.InnerNeighbourhood.{IsNeighbourhood};
ghost use Rattle.deck.specs.Deck.{asked, fixed_query};

use difference::ciede2000::ciede2000;
use difference::prepared::Prepared;
use difference::verdict::within_tolerance;
use fixed_point::{Reading, Weights};
use near::Neighbourhood;
use refusal::Refusal;
use sample::{FixedWeights, Lab};

// What a search asks of each swatch, worked out once.
#[derive(Clone, Copy)]
pub struct PreparedQuery {
    weights: FixedWeights,
    reading: Prepared,
    tolerance: u64,
    near: Neighbourhood,
    pub ghost weights_in: { WeightsIn weights },
    pub ghost tolerance_in: { tolerance ≤ 1000000 },
    pub ghost near_is: { IsNeighbourhood weights tolerance (prepared_sample reading) near },
}

impl PreparedQuery {
    ghost use Rattle.deck.specs.InnerQuery.{query_of, query_refusal, sample_matches};

    // The query, or the first that applies of refusals 1 to 5.
    pub fn new(reading: Reading, weights: Weights, tolerance: f32) -> Result<PreparedQuery, Refusal>
        ensures refusal { refused_with result ≡ query_refusal (asked reading weights tolerance) }
        ensures query { IfOk result (λ q. query_of q ≡ fixed_query (asked reading weights tolerance)) }
    {
        let reading = reading.rounded()?;
        let weights = weights.rounded()?;
        let tolerance = fixed_point::rounded_tolerance(tolerance)?;
        Ok(PreparedQuery {
            weights,
            reading: Prepared::of(reading),
            tolerance,
            near: Neighbourhood::of(weights, tolerance, reading),
        })
    }

    // Whether a swatch, which is sample 1, matches. Most are too far off in a and b, which needs no working.
    pub fn matches(self, swatch: Lab) -> bool
        ensures { result ≡ sample_matches (query_of self) (lab_of swatch) }
    {
        if self.near.beyond_radius(swatch) {
            return false;
        }
        let millionths = ciede2000(self.weights, Prepared::of(swatch), self.reading);
        within_tolerance(millionths, self.tolerance)
    }

    // The lightness of the reading.
    pub fn lightness(self) -> u64
        ensures { (result ≡ (query_of self).reading.l) × (result ≤ 1000000) }
    {
        self.reading.l
    }

    // The greatest difference in lightness that a match can have.
    pub fn reach(self) -> u64
        ensures { let q = query_of self in
            (result ≡ 7 * q.weights.l * (q.tolerance + 1) / 40000) × (result ≤ 17500018) }
    {
        7 * self.weights.l * (self.tolerance + 1) / 40000
    }
}
