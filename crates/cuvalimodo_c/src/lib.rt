// The clock for other languages, in the caller's own memory: each call of the clock takes a reference to it.
//
// A lent array crosses as a pointer and a length; an answer is a small struct. `number` is 0 where the call is accepted and otherwise that of the
// refusal, with its `place`. Nothing is asked of the caller but a clock: memory that is all zeros, or that one of these calls left. A refused call
// leaves the clock and the lent buffers as they were. bindings/c/cuvalimodo.h declares all of it for C.
//
// (Each function over a lent clock is thin. The archive that C links is made of cuvalimodo_lib, whose exports call these.)
#![tactic(auto)]

ghost use Rattle.std.specs.Prelude.{◌≡◌};
ghost use Rattle.card_file.specs.Cards.{cards_outcome};
ghost use Rattle.card_file.specs.Counts.{counts_of};
ghost use Rattle.refusal_words.specs.Words.{words_of, bytes_of, zeros_behind};
ghost use Rattle.columns.specs.Names.{names_from};
ghost use Rattle.calls.specs.Names.{names_in};
ghost use Rattle.station.specs.Station.{station_lent};
ghost use Rattle.clock.specs.View.{view, Made};
ghost use Rattle.clock.specs.Posts.{NewPost, CardsPost, StationPost, DatePost, HeightPost, SeriesPost, TurnsPost, YearPost, BookingsPost, HourlyPost};
ghost use Rattle.cuvalimodo_c.specs.Answers.{verdict_returned, reading_returned, turnings_returned, cards_told, Plain, PlainReading, PlainTurnings, PlainCards};

pub mod answers; // what the calls say, in numbers
mod byvalue; // the calls by value, in numbers

use crate::answers::{Cards, Reading, Text, Turnings, Verdict};
use card_file::counts;
use card_file::counts::Counts;
use clock::{Clock, TableNames};
use station::records;
use station::records::Record;
use station::strides::Strides;

// A card file is checked: what it comes to.
#[unsafe(no_mangle)]
pub extern "C" fn cuvalimodo_check_cards(file: &[u8]) -> Counts
    ensures { result ≡ counts_of (cards_outcome file.now) }
{
    counts::check_cards(file)
}

// A clock with no table, station or month, in the place of whatever is there.
#[unsafe(no_mangle)]
pub extern "C" fn cuvalimodo_new(clock: &mut Clock)
    ensures { NewPost clock.new }
{
    *clock = clock::new();
}

// A card file: its table takes the place of the old one, with no station and no month; or it is refused.
#[unsafe(no_mangle)]
pub extern "C" fn cuvalimodo_load_cards(clock: &mut Clock, file: &[u8]) -> Verdict
    requires { Made clock.old }
    ensures { CardsPost clock.old file.now (verdict_returned result) clock.new × Plain result }
{
    let after = byvalue::load_cards(*clock, file);
    *clock = after.clock;
    after.verdict
}

// A station: a latitude, its stride lengths and the records of its constituents. It keeps the table and drops the month; or it is refused.
#[unsafe(no_mangle)]
pub extern "C" fn cuvalimodo_set_station(
    clock: &mut Clock,
    latitude: i32,
    strides: Strides,
    records: &[Record],
) -> Verdict
    requires { Made clock.old }
    ensures { StationPost clock.old (station_lent latitude strides records.now) (verdict_returned result) clock.new × Plain result }
{
    let n = records.len();
    let rows = records::rows_of(records);
    let after = byvalue::place_station(*clock, latitude, strides, n, rows);
    *clock = after.clock;
    after.verdict
}

// A date: its month is prepared, in place of any before; or it is refused.
#[unsafe(no_mangle)]
pub extern "C" fn cuvalimodo_set_date(clock: &mut Clock, year: u32, month: u32) -> Verdict
    requires { Made clock.old }
    ensures { DatePost clock.old year month (verdict_returned result) clock.new × Plain result }
{
    let after = byvalue::set_date(*clock, year, month);
    *clock = after.clock;
    after.verdict
}

// The height at a minute of the month, in tenths of a millimetre; or a refusal. The clock is read where it lies.
#[unsafe(no_mangle)]
pub extern "C" fn cuvalimodo_height(clock: &Clock, minute: u32) -> Reading
    requires { Made clock.now }
    ensures { HeightPost clock.now minute (reading_returned result) × PlainReading result }
{
    let answer = clock::height_lent(clock, minute);
    answers::told_height(answer)
}

// One height for each lent place, at start, start + step, start + 2 × step and so on; or a refusal.
#[unsafe(no_mangle)]
pub extern "C" fn cuvalimodo_series(
    clock: &Clock,
    start: u32,
    step: u32,
    heights: &mut [i64],
) -> Verdict
    requires { Made clock.now }
    ensures { SeriesPost clock.now start step heights.old heights.new (verdict_returned result) × Plain result }
{
    byvalue::series(*clock, start, step, heights)
}

// The high and low waters from the first minute to the last, into the lent buffers from their front; or a refusal.
#[unsafe(no_mangle)]
pub extern "C" fn cuvalimodo_turns(
    clock: &Clock,
    first: u32,
    last: u32,
    minutes: &mut [u32],
    heights: &mut [i64],
) -> Turnings
    requires { Made clock.now }
    ensures { TurnsPost clock.now first last minutes.old minutes.new heights.old heights.new (turnings_returned result) × PlainTurnings result }
{
    byvalue::turns(*clock, first, last, minutes, heights)
}

// A year's sheet: a height for each lent place of the series and the high and low waters of the search, minutes counted from 1 January, each
// month with its own weights; or a refusal. No month need be prepared, and one that is stays.
#[unsafe(no_mangle)]
pub extern "C" fn cuvalimodo_year(
    clock: &Clock,
    year: u32,
    start: u32,
    step: u32,
    first: u32,
    last: u32,
    series: &mut [i64],
    minutes: &mut [u32],
    heights: &mut [i64],
) -> Turnings
    requires { Made clock.now }
    ensures { YearPost clock.now (record { year = year; start = start; step = step; first = first; last = last }) series.old series.new minutes.old minutes.new heights.old heights.new (turnings_returned result) × PlainTurnings result }
{
    byvalue::year(
        *clock, year, start, step, first, last, series, minutes, heights,
    )
}

// The height at each minute of a list, in any order and with repeats, at its place; or a refusal. The clock is read where it lies.
#[unsafe(no_mangle)]
pub extern "C" fn cuvalimodo_bookings(
    clock: &Clock,
    minutes: &[u32],
    heights: &mut [i64],
) -> Verdict
    requires { Made clock.now }
    ensures { BookingsPost clock.now minutes.now heights.old heights.new (verdict_returned result) × Plain result }
{
    let answer = clock::bookings_lent(clock, minutes, heights);
    answers::told(answer)
}

// The month's hourly cards under a station number, into the lent buffer from its front; or a refusal.
#[unsafe(no_mangle)]
pub extern "C" fn cuvalimodo_hourly(clock: &Clock, station: u32, cards: &mut [u8]) -> Cards
    requires { Made clock.now }
    ensures { HourlyPost clock.now station cards.old cards.new (cards_told result) × PlainCards result }
{
    byvalue::hourly(*clock, station, cards)
}

// The names of the clock's frequencies by place, none where it has no table.
#[unsafe(no_mangle)]
pub extern "C" fn cuvalimodo_names(clock: &Clock) -> TableNames
    requires { Made clock.now }
    ensures { names_from result.bytes 0 result.count ≡ names_in (view clock.now) }
{
    clock::names(*clock)
}

// The words of the refusal that has a number; none for a number that no refusal has.
#[unsafe(no_mangle)]
pub extern "C" fn cuvalimodo_refusal_text(number: u32) -> Text
    ensures { result.text ≡ zeros_behind (bytes_of (words_of number)) }
{
    let text = refusal_words::text_of(number);
    Text { text }
}
