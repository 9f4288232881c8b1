// What hourly cards ask before anything is worked out: of the state 21 to 23, and then of the station number 32.
ghost use Rattle.std.specs.Prelude.{◌≡◌};
ghost use Rattle.refusals.specs.Outcome.{outcome_of};
ghost use Rattle.calls.specs.inner.Flags.{hourly_by};

use crate::asked::{There, state_answer};
use hourly::STATION_NUMBER;
use refusals::{Answer, Refusal};

// What the cards of a station number ask.
pub fn hourly_answer(there: There, number: u32) -> Answer
    ensures { outcome_of result ≡ hourly_by there.tabled there.stationed there.dated number }
{
    // No `?`: `has-the-clock` of claim_runs cannot have std's code.
    if let Err(refused) = state_answer(there) {
        return Err(refused);
    }
    if STATION_NUMBER < number {
        return Err(Refusal::BadStationNumber.at(0));
    }
    Ok(())
}
