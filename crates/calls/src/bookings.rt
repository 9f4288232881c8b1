// What a list of bookings asks: of the state 21 to 23, of the lent buffers 31, and then of its minutes 9.
ghost use Rattle.std.specs.Prelude.{◌≡◌};
ghost use Rattle.refusals.specs.Outcome.{outcome_of};
ghost use Rattle.calls.specs.Asked.{minute_outside};
ghost use Rattle.calls.specs.Bookings.{minutes_from};
ghost use Rattle.calls.specs.inner.Flags.{bookings_by};

use crate::asked::{There, state_answer};
use refusals::{Answer, Refusal};

// Whether a minute is past a month's last.
fn minute_outside(last: u64, minute: u32) -> bool
    ensures { result ≡ minute_outside last minute }
{
    last < minute as u64
}

// Whether all minutes are in a month with this last minute; 9 at the first that is not, its place counted from 1.
fn minutes_answer(last: u64, minutes: &[u32]) -> Answer
    ensures { outcome_of result ≡ minutes_from last 1 minutes.now }
{
    for (k, minute) in minutes.iter().enumerate() {
        if minute_outside(last, *minute) {
            return Err(Refusal::BadMinutes.at(k + 1));
        }
    }
    Ok(())
}

// What a list of minutes asks, with so many places lent for its heights.
pub fn bookings_answer(there: There, last: u64, minutes: &[u32], places: usize) -> Answer
    ensures { outcome_of result ≡ bookings_by there.tabled there.stationed there.dated last minutes.now places }
{
    // No `?`: `has-the-clock` of claim_runs cannot have std's code.
    if let Err(refused) = state_answer(there) {
        return Err(refused);
    }
    if minutes.len() != places {
        return Err(Refusal::UnequalBuffers.at(0));
    }
    minutes_answer(last, minutes)
}
