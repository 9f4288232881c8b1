// The calls of the clock by value, with their answers in numbers: what the functions over a lent clock call.
ghost use Rattle.std.specs.Prelude.{◌≡◌};
ghost use Rattle.refusals.specs.Outcome.{outcome_of};
ghost use Rattle.clock.specs.View.{Made};
ghost use Rattle.clock.specs.Posts.{CardsPost, StationPost, DatePost, SeriesPost, TurnsPost, YearPost, HourlyPost};
ghost use Rattle.station.specs.Records.{records_of};
ghost use Rattle.station.specs.Station.{station_lent};
ghost use Rattle.cuvalimodo_c.specs.Answers.{verdict_returned, turnings_returned, cards_told, Plain, PlainTurnings, PlainCards};

use crate::answers;
use crate::answers::{Cards, Turnings, Verdict};
use calls::annual::Sheet;
use clock::{After, Clock};
use station::records::Rows;
use station::strides::Strides;

// What a call says, and the clock as it leaves it.
// (No Result: a refused call leaves a clock too, of which `CardsPost`, `StationPost` and `DatePost` speak.)
#[derive(Clone, Copy)]
pub struct Left {
    pub verdict: Verdict,
    pub clock: Clock,
}

// What a call said and left, in numbers.
fn in_numbers(after: After) -> Left
    ensures { (verdict_returned result.verdict ≡ outcome_of after.answer) × (Plain result.verdict × (result.clock ≡ after.clock)) }
{
    let answer = after.answer;
    let verdict = answers::told(answer);
    let clock = after.clock;
    Left { verdict, clock }
}

// A card file.
pub fn load_cards(clock: Clock, file: &[u8]) -> Left
    requires { Made clock }
    ensures { CardsPost clock file.now (verdict_returned result.verdict) result.clock × Plain result.verdict }
{
    in_numbers(clock::load_cards(clock, file))
}

// A station whose records are taken apart.
pub fn place_station(clock: Clock, latitude: i32, strides: Strides, n: usize, rows: Rows) -> Left
    requires { Made clock }
    ensures { StationPost clock (station_lent latitude strides (records_of rows n)) (verdict_returned result.verdict) result.clock × Plain result.verdict }
{
    in_numbers(clock::place_station(clock, latitude, strides, n, rows))
}

// A date.
pub fn set_date(clock: Clock, year: u32, month: u32) -> Left
    requires { Made clock }
    ensures { DatePost clock year month (verdict_returned result.verdict) result.clock × Plain result.verdict }
{
    in_numbers(clock::set_date(clock, year, month))
}

// A series.
pub fn series(clock: Clock, start: u32, step: u32, heights: &mut [i64]) -> Verdict
    requires { Made clock }
    ensures { SeriesPost clock start step heights.old heights.new (verdict_returned result) × Plain result }
{
    answers::told(clock::series(clock, start, step, heights))
}

// Turns.
pub fn turns(
    clock: Clock,
    first: u32,
    last: u32,
    minutes: &mut [u32],
    heights: &mut [i64],
) -> Turnings
    requires { Made clock }
    ensures { TurnsPost clock first last minutes.old minutes.new heights.old heights.new (turnings_returned result) × PlainTurnings result }
{
    answers::told_turns(clock::turns(clock, first, last, minutes, heights))
}

// A year's sheet.
pub fn year(
    clock: Clock,
    year: u32,
    start: u32,
    step: u32,
    first: u32,
    last: u32,
    series: &mut [i64],
    minutes: &mut [u32],
    heights: &mut [i64],
) -> Turnings
    requires { Made clock }
    ensures { YearPost clock (record { year = year; start = start; step = step; first = first; last = last }) series.old series.new minutes.old minutes.new heights.old heights.new (turnings_returned result) × PlainTurnings result }
{
    let sheet = Sheet {
        year,
        start,
        step,
        first,
        last,
    };
    answers::told_turns(clock::year(clock, sheet, series, minutes, heights))
}

// A month's hourly cards.
pub fn hourly(clock: Clock, station: u32, cards: &mut [u8]) -> Cards
    requires { Made clock }
    ensures { HourlyPost clock station cards.old cards.new (cards_told result) × PlainCards result }
{
    answers::told_cards(clock::hourly(clock, station, cards))
}
