// What a station, a date and a month come to, before the clock keeps them: accepted, or 21, 22, 8 and 11 with 01's places.
ghost use Rattle.std.specs.Prelude.{◌≡◌};
ghost use Rattle.refusals.specs.Outcome.{outcome_of, answered};
ghost use Rattle.station.specs.Records.{records_of};
ghost use Rattle.station.specs.Station.{station_lent};
ghost use Rattle.month.specs.inner.View.{prepared_of};
ghost use Rattle.calls.specs.inner.Flags.{date_by};
ghost use Rattle.calls.specs.inner.Posts.{TakenPost};

use crate::asked::{There, state_answer};
use month_prepared::Month;
use refusals::{Answer, Refusal, Refused};
use station::Station;
use station::records::Rows;
use station::strides::Strides;
use table::Table;

// What a station comes to: 21 where there is no table, else what its records come to.
// (A flag beside the table and no Option: both lie so in the clock, which C holds, and `TakenPost` speaks of `tabled`.)
pub fn station_answer(
    tabled: bool,
    table: Table,
    latitude: i32,
    strides: Strides,
    n: usize,
    rows: Rows,
) -> Result<Station, Refused>
    ensures { TakenPost tabled table (station_lent latitude strides (records_of rows n)) result }
{
    // No `?`: `has-the-clock` of claim_runs cannot have std's code.
    if let Err(refused) = state_answer(There {
        tabled,
        stationed: true,
        dated: true,
    }) {
        return Err(refused);
    }
    station::take_station(table.frequencies, latitude, strides, n, rows)
}

// What a date asks before its month is prepared: 21, 22, 8.
pub fn date_answer(tabled: bool, stationed: bool, year: u32, month: u32) -> Answer
    ensures { outcome_of result ≡ date_by tabled stationed year month }
{
    // No `?`: `has-the-clock` of claim_runs cannot have std's code.
    if let Err(refused) = state_answer(There {
        tabled,
        stationed,
        dated: true,
    }) {
        return Err(refused);
    }
    if !calendar::in_range(year, month) {
        return Err(Refusal::BadDate.at(0));
    }
    Ok(())
}

// What a prepared month says: that it is accepted, or 11 and the record.
pub fn month_answer(prepared: Result<Month, Refused>) -> Answer
    ensures { outcome_of result ≡ answered (prepared_of prepared) }
{
    // No `map`: `has-the-clock` of claim_runs cannot have std's code.
    match prepared {
        Ok(_) => Ok(()),
        Err(refused) => Err(refused),
    }
}
