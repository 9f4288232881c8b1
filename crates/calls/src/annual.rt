// What a year's sheet asks: of the state 21 and 22, of the year 8, and then of its minutes 9.
ghost use Rattle.std.specs.Prelude.{◌≡◌};
ghost use Rattle.refusals.specs.Outcome.{outcome_of};
ghost use Rattle.calls.specs.Year.{sheet_outside};
ghost use Rattle.calls.specs.inner.Flags.{year_by};

use crate::asked::{There, series_outside, state_answer, turns_outside};
use refusals::{Answer, Refusal};

// A year, the start and the step of a series, the first and the last minute of a search; minutes are counted from 1 January.
#[derive(Clone, Copy)]
pub struct Sheet {
    pub year: u32,
    pub start: u32,
    pub step: u32,
    pub first: u32,
    pub last: u32,
}

// What a year asks before its months are prepared: 21, 22, 8.
pub fn year_answer(tabled: bool, stationed: bool, year: u32) -> Answer
    ensures { outcome_of result ≡ year_by tabled stationed year }
{
    // No `?`: `has-the-clock` of claim_runs cannot have std's code.
    if let Err(refused) = state_answer(There {
        tabled,
        stationed,
        dated: true,
    }) {
        return Err(refused);
    }
    if !calendar::year_in_range(year) {
        return Err(Refusal::BadDate.at(0));
    }
    Ok(())
}

// Whether the series of so many heights, or the search, is outside the year.
pub fn sheet_outside(sheet: Sheet, places: usize) -> bool
    ensures { result ≡ sheet_outside sheet places }
{
    let end = calendar::year_minutes(sheet.year);
    if series_outside(end, sheet.start as u64, sheet.step as u64, places) {
        return true;
    }
    turns_outside(end, sheet.first as u64, sheet.last as u64)
}
