// A station's constituents in a month: V, frequency and the weights P and Q of each record, or refusal 11.
#![tactic(auto)]

ghost use Rattle.std.specs.Prelude.{◌≡◌, true, ◌≤◌, ◌^◌, nat_abs, get_or};
ghost use Rattle.calendar.specs.Calendar.{in_range};
ghost use Rattle.cosine.specs.Fixed.{IsTable};
ghost use Rattle.table.specs.inner.View.{table_of};
ghost use Rattle.station.specs.inner.Station.{station_of};
ghost use Rattle.month_arguments.specs.inner.Longitudes.{longitudes_of};
ghost use Rattle.month_satellites.specs.inner.Factors.{factors_of};
ghost use Rattle.month_workings.specs.inner.Given.{IsGiven};
ghost use Rattle.month.specs.Month.{weight, month_of};
ghost use Rattle.month.specs.inner.View.{prepared_of, frequencies_of, rows_prepared};

use angles::floor_div;
use calendar::day_count;
use cosine::ENTRIES;
use limits::FREQUENCIES;
use month_arguments::astronomy::longitudes_on;
use month_prepared::{Month, held, no_constituents};
use month_satellites::latitude::latitude_factors;
use month_workings::worked::{from_mains, work_mains};
use month_workings::workings::{Given, none_kept};
use refusals::{Refusal, Refused};
use station::Station;
use table::definitions::{find, first_rows};
use table::{Table, at};

// The weight of an amplitude, from X or Y.
fn weight_of(amplitude: u16, x: i64) -> i32
    requires { nat_abs x ≤ 2 ^ 22 }
    ensures { result ≡ weight amplitude x }
{
    floor_div(amplitude as i64 * x, 256) as i32
}

// The frequency of a place, or 0 past the last.
fn frequency_at(speeds: &[u64; FREQUENCIES], frequencies: usize, place: u8) -> u64
    ensures { result ≡ get_or (frequencies_of speeds.now frequencies) place 0 }
{
    if (place as usize) < frequencies {
        *at(speeds, place as usize, &0)
    } else {
        0
    }
}

// The month of a station's records: each in its turn, until one is refused by 11.
fn prepare_records(
    cosines: &[u32; ENTRIES],
    table: Table,
    station: Station,
    given: Given,
) -> Result<Month, Refused>
    requires table { IsTable cosines.now }
    requires given { IsGiven given }
    requires mains_value { given.mains ≡ table.mains }
    ensures { prepared_of result ≡ rows_prepared table (factors_of given.factors) (longitudes_of given.longitudes) 1 (station_of station).records }
{
    let n = held(station.count);
    let mains = first_rows(&table.maincards, 3, table.mains);
    let shallows = first_rows(&table.shallowcards, 6, table.shallows);
    let mut kept = none_kept();
    let mut month = no_constituents();
    for k in 0..n {
        let place = station.places[k];
        let found = find(&mains, table.mains, &shallows, table.shallows, place);
        work_mains(found, cosines, &table, given, &mut kept);
        let w = from_mains(found, &kept, &table);
        // (no `?`: it calls std's code, which `has-the-clock` of claim_runs can't have)
        let Some(xy) = w.corrected else {
            return Err(Refused {
                refusal: Refusal::TooLarge,
                place: k + 1,
            });
        };
        let amplitude = station.amplitudes[k];
        let p = weight_of(amplitude, xy.x);
        let q = weight_of(amplitude, xy.y);
        month.arguments[k] = w.argument;
        month.lags[k] = station.lags[k];
        month.frequencies[k] = frequency_at(&table.speeds, table.frequencies, place);
        month.ps[k] = p;
        month.qs[k] = q;
    }
    month.count = n;
    Ok(month)
}

// A station's month: every record's constituent, or the first record, from 1, that is refused by 11.
pub fn prepare(
    cosines: &[u32; ENTRIES],
    table: Table,
    station: Station,
    year: u32,
    month: u32,
) -> Result<Month, Refused>
    requires table { IsTable cosines.now }
    requires month_value { in_range year month ≡ true }
    ensures { prepared_of result ≡ month_of (table_of table) (station_of station) year month }
{
    let days = day_count(year, month, 16);
    let longitudes = longitudes_on(days, &table.longitudes, &table.increases);
    let factors = latitude_factors(cosines, station.latitude);
    let mains = table.mains;
    let given = Given {
        factors,
        longitudes,
        mains,
    };
    prepare_records(cosines, table, station, given)
}
