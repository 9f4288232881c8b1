// What heights, series and turns ask before anything is worked out: of the state, 21 to 23, and then of the minutes, 9.
//
// A refusal is handed on by `if let`, in all of this crate: `?` calls std's code, which `has-the-clock` of claim_runs can't have.
ghost use Rattle.std.specs.Prelude.{◌≡◌};
ghost use Rattle.refusals.specs.Outcome.{outcome_of};
ghost use Rattle.calls.specs.Asked.{minute_outside, series_outside, turns_outside};
ghost use Rattle.calls.specs.inner.Flags.{state_by, minutes_by};

use crate::reasons::series_reason;
use refusals::{Answer, Refusal};

// Whether a table, a station and a month are there.
#[derive(Clone, Copy)]
pub struct There {
    pub tabled: bool,
    pub stationed: bool,
    pub dated: bool,
}

// What the state is asked, 21 to 23: whether a table, a station and a month are there. (A call that does not ask for one says that it is.)
pub fn state_answer(there: There) -> Answer
    ensures { outcome_of result ≡ state_by there.tabled there.stationed there.dated }
{
    if !there.tabled {
        return Err(Refusal::NoTable.at(0));
    }
    if !there.stationed {
        return Err(Refusal::NoStation.at(0));
    }
    if !there.dated {
        return Err(Refusal::NoMonth.at(0));
    }
    Ok(())
}

// What the state is asked, and then whether the minutes are outside the month.
fn minutes_answer(there: There, outside: bool) -> Answer
    ensures { outcome_of result ≡ minutes_by there.tabled there.stationed there.dated outside }
{
    // No `?`: `has-the-clock` of claim_runs cannot have std's code.
    if let Err(refused) = state_answer(there) {
        return Err(refused);
    }
    if outside {
        return Err(Refusal::BadMinutes.at(0));
    }
    Ok(())
}

// What a height at a minute asks, in a month with this last minute.
pub fn height_answer(there: There, last: u64, minute: u64) -> Answer
    ensures { outcome_of result ≡ minutes_by there.tabled there.stationed there.dated (minute_outside last minute) }
{
    minutes_answer(there, last < minute)
}

// Whether the start is past the month's last minute, the step out of range, or the last of so many heights past the month's last minute.
pub fn series_outside(last: u64, start: u64, step: u64, places: usize) -> bool
    ensures { result ≡ series_outside last start step places }
{
    matches!(series_reason(last, start, step, places), Some(_))
}

// What a series of so many heights asks.
pub fn series_answer(there: There, last: u64, start: u64, step: u64, places: usize) -> Answer
    ensures { outcome_of result ≡ minutes_by there.tabled there.stationed there.dated (series_outside last start step places) }
{
    minutes_answer(there, series_outside(last, start, step, places))
}

// Whether the last minute is past the month's, or the two are reversed.
pub fn turns_outside(end: u64, first: u64, last: u64) -> bool
    ensures { result ≡ turns_outside end first last }
{
    if end < last {
        return true;
    }
    last < first
}

// What a search for turns from a first minute to a last asks.
pub fn turns_answer(there: There, end: u64, first: u64, last: u64) -> Answer
    ensures { outcome_of result ≡ minutes_by there.tabled there.stationed there.dated (turns_outside end first last) }
{
    minutes_answer(there, turns_outside(end, first, last))
}
