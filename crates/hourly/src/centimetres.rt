// Heights in centimetres, and whether a card takes them.
ghost use Rattle.std.specs.Prelude.{◌≡◌};
ghost use Rattle.refusals.specs.Outcome.{outcome_of};
ghost use Rattle.hourly.specs.Card.{value};
ghost use Rattle.hourly.specs.Month.{centimetres, outside};
ghost use Rattle.hourly.specs.inner.Fields.{HeightsAnswered};

use refusals::{Answer, Refusal};

// The heights of a card.
pub const HEIGHTS: usize = 12;

// The least and the greatest height that a card takes, in centimetres.
pub const LEAST: i64 = -999;

pub const GREATEST: i64 = 9_998;

// The nearest centimetre to a height in tenths of a millimetre, a half going up. (In half centimetres, so that no sum can overflow.)
pub fn centimetres(height: i64) -> i64
    ensures { result ≡ centimetres height }
{
    angles::floor_div(angles::floor_div(height, 50) + 1, 2)
}

// That no card takes a height of so many centimetres.
pub fn outside(height: i64) -> bool
    ensures { result ≡ outside (value height) }
{
    !(LEAST <= height && height <= GREATEST)
}

// Whether the cards take the heights at all hours: the first card that does not, from 1.
pub fn heights_answer(hours: &[i64]) -> Answer
    ensures { HeightsAnswered hours.now (outcome_of result) }
{
    for (k, height) in hours.iter().enumerate() {
        if outside(centimetres(*height)) {
            return Err(Refusal::BadHeight.at(k / HEIGHTS + 1));
        }
    }
    Ok(())
}
