// A station: a latitude, stride lengths and its constituents' records, accepted whole or refused at the first record that is at fault.
#![tactic(auto)]

ghost use Rattle.std.specs.Prelude.{◌≡◌, ◌+◌, ◌%◌, ◌<◌, ◌≤◌};
ghost use Rattle.limits.specs.Limits.{most_records};
ghost use Rattle.refusals.specs.Outcome.{outcome_of};
ghost use Rattle.station.specs.Station.{amplitude_outside, record_outcome, station_lent};
ghost use Rattle.refusals.specs.Places.{is_among};
ghost use Rattle.station.specs.inner.Station.{places_before, no_station, put_record};
ghost use Rattle.station.specs.inner.Posts.{RecordsPost, StationPost};
ghost use Rattle.station.specs.Records.{record_at, records_of};

pub mod records; // the lent row of records, taken apart
pub mod strides; // the stride lengths

use crate::records::{Record, Rows, nth_record};
use crate::strides::Strides;
use limits::{AMPLITUDE, LATITUDE, PHASE, RECORDS};
use refusals::{Answer, Refusal, Refused};

// An accepted station: amplitudes in tenths of a millimetre, phase lags in hundredths of a degree.
#[repr(C)]
#[derive(Clone, Copy)]
pub struct Station {
    pub latitude: i32,
    pub strides: Strides,
    pub count: usize,
    pub places: [u8; RECORDS],
    pub amplitudes: [u16; RECORDS],
    pub lags: [u16; RECORDS],
}

// A station with no records.
pub fn no_station(latitude: i32, strides: Strides) -> Station
    ensures { result ≡ no_station latitude strides }
{
    Station {
        latitude,
        strides,
        count: 0,
        places: [0u8; RECORDS],
        amplitudes: [0u16; RECORDS],
        lags: [0u16; RECORDS],
    }
}

// Whether one of the first k places is this one.
fn is_repeated(places: &[u8; RECORDS], k: usize, place: u8) -> bool
    requires { k ≤ most_records }
    ensures { result ≡ is_among place (places_before places.now k) }
{
    for earlier in &places[..k] {
        if *earlier == place {
            return true;
        }
    }
    false
}

// Whether an amplitude is out of range.
pub fn amplitude_outside(amplitude: u32) -> bool
    ensures { result ≡ amplitude_outside amplitude }
{
    AMPLITUDE < amplitude
}

// Record k, from 0: its place is in the table and new, its amplitude and its phase lag are in range.
#[tactic(auto, unfolding(crate::specs::Station::record_outcome))]
fn record_answer(frequencies: usize, rows: Rows, k: usize) -> Answer
    requires { k < most_records }
    ensures { outcome_of result ≡ record_outcome frequencies (places_before rows.places k) (k + 1) (record_at rows k) }
{
    let place = rows.places[k];
    if frequencies <= place as usize {
        return Err(Refusal::Missing.at(k + 1));
    }
    if is_repeated(&rows.places, k, place) {
        return Err(Refusal::BadName.at(k + 1));
    }
    if amplitude_outside(rows.amplitudes[k]) {
        return Err(Refusal::OutOfRange.at(k + 1));
    }
    if PHASE < rows.phases[k] {
        return Err(Refusal::OutOfRange.at(k + 1));
    }
    Ok(())
}

// The low sixteen bits, which are all of a number that is in range.
fn narrow(x: u32) -> u16
    ensures { result ≡ x % 65_536 }
{
    (x % 65_536) as u16
}

// The station with record k kept.
fn with_record(station: Station, k: usize, one: Record) -> Station
    requires { k < most_records }
    ensures { result ≡ put_record station k one.place (one.amplitude % 65_536) (one.phase % 65_536) }
{
    let mut out = station;
    out.places[k] = one.place;
    out.amplitudes[k] = narrow(one.amplitude);
    out.lags[k] = narrow(one.phase);
    out.count = k + 1;
    out
}

// The first n records: each is checked in its turn, and added to the station, which starts with none.
fn take_records(
    frequencies: usize,
    empty: Station,
    n: usize,
    rows: Rows,
) -> Result<Station, Refused>
    requires { n ≤ most_records }
    ensures { RecordsPost frequencies empty n rows result }
{
    let mut station = empty;
    for k in 0..n {
        // No `?`: it calls std's code, which `has-the-clock` of claim_runs can't have.
        if let Err(refused) = record_answer(frequencies, rows, k) {
            return Err(refused);
        }
        station = with_record(station, k, nth_record(&rows, k));
    }
    Ok(station)
}

// The least latitude, and the number of the first record too many.
const SOUTHMOST: i32 = -LATITUDE;

const FIRST_TOO_MANY: usize = RECORDS + 1;

// A station of n records, of which the first 146 are in the rows: accepted whole, or refused with 01's number and place.
pub fn take_station(
    frequencies: usize,
    latitude: i32,
    strides: Strides,
    n: usize,
    rows: Rows,
) -> Result<Station, Refused>
    ensures { StationPost frequencies (station_lent latitude strides (records_of rows n)) result }
{
    if latitude < SOUTHMOST {
        return Err(Refusal::OutOfRange.at(0));
    }
    if LATITUDE < latitude {
        return Err(Refusal::OutOfRange.at(0));
    }
    if strides::strides_outside(strides) {
        return Err(Refusal::BadStride.at(0));
    }
    if RECORDS < n {
        return Err(Refusal::TooMany.at(FIRST_TOO_MANY));
    }
    take_records(frequencies, no_station(latitude, strides), n, rows)
}
