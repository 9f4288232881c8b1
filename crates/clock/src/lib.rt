// The berth clock: a table, a station and a month, each there or not, and the calls that set and read them.
//
// A call takes the clock and, where it can change it, gives it back. A refused call leaves the clock and the lent buffers as they were.
// No call asks anything of its caller but a clock that `new` or another call made.
//
// A refusal is handed on by `if let` or `match`, in `load_cards`, `place_station`, `prepare_month` and `set_date` with the clock beside it: `?` calls std's code,
// which `has-the-clock` of claim_runs can't have. In `place_station`, `prepare_month` and `set_date` each arm returns at once: the value of a `match` is one more copy of 21 KB.
// `with_month` sets fields in place: in the literal of a clock the month's rows are copied once more.
#![tactic(auto)]

ghost use Rattle.std.specs.Prelude.{◌≡◌, true};
ghost use Rattle.columns.specs.Names.{names_from};
ghost use Rattle.table.specs.inner.View.{table_of};
ghost use Rattle.calendar.specs.Calendar.{in_range};
ghost use Rattle.calls.specs.State.{some};
ghost use Rattle.calls.specs.Names.{names_there, names_in};
ghost use Rattle.clock.specs.View.{view, Sound, Made};
ghost use Rattle.clock.specs.Posts.{NewPost, CardsPost, StationPost, DatePost, HeightPost, SeriesPost, TurnsPost, YearPost, BookingsPost, HourlyPost};
ghost use Rattle.clock.specs.inner.Posts.{BarePost, PreparedPost, LentBy, MonthBy};
ghost use Rattle.station.specs.Records.{records_of};
ghost use Rattle.station.specs.Station.{station_lent};
ghost use Rattle.hourly.specs.Answers.{cards_returned};
ghost use Rattle.clock.specs.Returned.{height_returned, turns_returned};
ghost use Rattle.refusals.specs.Outcome.{outcome_of};
ghost use Rattle.clock.specs.inner.Parts.{accepts, with_station, with_month};

mod yearsheet; // a year's sheet, from a table and a station
mod monthcards; // a month's hourly cards, from its constituents and its date

use calls::annual::Sheet;
use calls::asked::There;
use calls::bookings::bookings_answer;
use calls::hourcards::hourly_answer;
use calls::{annual, asked, settings};
use card_file::reader;
use cosine::ENTRIES;
use heights::Lent;
use heights::months::LentMonths;
use limits::RECORDS;
use month_prepared::{Month, months};
use refusals::{Answer, Refused};
use station::records::{Record, Rows};
use station::strides::Strides;
use station::{Station, records, strides};
use table::{NAMES, Table};
use turns::strides::station_stride;
use turns::{Reach, Summary};

// What the clock keeps. Only the calls below make or change one; all zeros are a clock without a table.
// (No Option for the table, the station and the month: C holds this struct in its own memory, of a fixed size, and all zeros have to be a clock.)
#[repr(C)]
#[derive(Clone, Copy)]
pub struct Clock {
    cosines: [u32; ENTRIES],
    tabled: bool,
    table: Table,
    stationed: bool,
    station: Station,
    dated: bool,
    year: u32,
    month: u32,
    last: u64,
    count: usize,
    arguments: [u64; RECORDS],
    lags: [u16; RECORDS],
    frequencies: [u64; RECORDS],
    ps: [i32; RECORDS],
    qs: [i32; RECORDS],
}

// The names of a table's frequencies, five bytes each by place, and how many there are.
#[repr(C)]
#[derive(Clone, Copy)]
pub struct TableNames {
    pub count: usize,
    pub bytes: [u8; NAMES],
}

// What a call says, and the clock as it leaves it.
// (No Result: a refused call hands the clock back too, of which `CardsPost`, `StationPost` and `DatePost` speak.)
#[derive(Clone, Copy)]
pub struct After {
    pub answer: Answer,
    pub clock: Clock,
}

impl Clock {
    // Whether a table, a station and a month are there.
    fn there(&self) -> There
        ensures { result ≡ record { tabled = self.now.tabled; stationed = self.now.stationed; dated = self.now.dated } }
    {
        There {
            tabled: self.tabled,
            stationed: self.stationed,
            dated: self.dated,
        }
    }

    // The constituents of its month, lent with its table of cosines.
    fn lent(&self) -> Lent<'_>
        ensures { LentBy self.now result }
    {
        Lent {
            table: &self.cosines,
            arguments: &self.arguments,
            lags: &self.lags,
            frequencies: &self.frequencies,
            ps: &self.ps,
            qs: &self.qs,
            count: self.count,
        }
    }

    // Its month, lent as a single one of months that follow one another.
    fn month_lent(&self) -> LentMonths<'_>
        ensures { MonthBy self.now result }
    {
        LentMonths {
            table: &self.cosines,
            arguments: &self.arguments,
            lags: &self.lags,
            frequencies: &self.frequencies,
            ps: &self.ps,
            qs: &self.qs,
            months: months::one_month(self.count, self.last),
        }
    }
}

// A clock with a table or none, and no station or month.
fn bare(tabled: bool, table: Table) -> Clock
    ensures { BarePost tabled table result }
{
    Clock {
        cosines: cosine::cosines(),
        tabled,
        table,
        stationed: false,
        station: station::no_station(0, strides::usual()),
        dated: false,
        year: 0,
        month: 0,
        last: 0,
        count: 0,
        arguments: [0u64; RECORDS],
        lags: [0u16; RECORDS],
        frequencies: [0u64; RECORDS],
        ps: [0i32; RECORDS],
        qs: [0i32; RECORDS],
    }
}

// A clock with no table, station or month.
pub fn new() -> Clock
    ensures { NewPost result }
{
    bare(false, table::no_cards())
}

// The clock with a new station, and no month.
fn with_station(clock: Clock, station: Station) -> After
    ensures { result ≡ accepts (with_station clock station) }
{
    After {
        answer: Ok(()),
        clock: Clock {
            stationed: true,
            station,
            dated: false,
            ..clock
        },
    }
}

// The clock with a new month, prepared for a date.
fn with_month(clock: Clock, year: u32, month: u32, last: u64, prepared: Month) -> After
    ensures { result ≡ accepts (with_month clock year month last prepared) }
{
    let Month {
        count,
        arguments,
        lags,
        frequencies,
        ps,
        qs,
    } = prepared;
    let mut next = clock;
    next.dated = true;
    next.year = year;
    next.month = month;
    next.last = last;
    next.count = month_prepared::held(count);
    next.arguments = arguments;
    next.lags = lags;
    next.frequencies = frequencies;
    next.ps = ps;
    next.qs = qs;
    After {
        answer: Ok(()),
        clock: next,
    }
}

// A card file: its table takes the place of the old one, with no station and no month; or it is refused.
pub fn load_cards(clock: Clock, file: &[u8]) -> After
    requires { Made clock }
    ensures { CardsPost clock file.now (outcome_of result.answer) result.clock }
{
    match reader::read_cards(file) {
        Ok(table) => After {
            answer: Ok(()),
            clock: bare(true, table),
        },
        Err(refused) => After {
            answer: Err(refused),
            clock,
        },
    }
}

// A station as `set_station` takes it, for a caller whose records lie in plain arrays: n records, of which the first 146 are in the rows.
pub fn place_station(clock: Clock, latitude: i32, strides: Strides, n: usize, rows: Rows) -> After
    requires { Made clock }
    ensures { StationPost clock (station_lent latitude strides (records_of rows n)) (outcome_of result.answer) result.clock }
{
    match settings::station_answer(clock.tabled, clock.table, latitude, strides, n, rows) {
        Ok(station) => {
            return with_station(clock, station);
        }
        Err(refused) => {
            return After {
                answer: Err(refused),
                clock,
            };
        }
    }
}

// A station: a latitude, its stride lengths and the records of its constituents. It keeps the table and drops the month; or it is refused.
pub fn set_station(clock: Clock, latitude: i32, strides: Strides, records: &[Record]) -> After
    requires { Made clock }
    ensures { StationPost clock (station_lent latitude strides records.now) (outcome_of result.answer) result.clock }
{
    let n = records.len();
    let rows = records::rows_of(records);
    place_station(clock, latitude, strides, n, rows)
}

// The month of a date that is in range.
fn prepare_month(clock: Clock, year: u32, month: u32) -> After
    requires { Sound clock × (in_range year month ≡ true) }
    ensures { PreparedPost clock year month result.answer result.clock }
{
    let last = calendar::month_minutes(year, month) as u64;
    let prepared = month::prepare(&clock.cosines, clock.table, clock.station, year, month);
    match prepared {
        Ok(made) => {
            return with_month(clock, year, month, last, made);
        }
        Err(_) => {
            return After {
                answer: settings::month_answer(prepared),
                clock,
            };
        }
    }
}

// A date: its month is prepared, in place of any before; or it is refused.
pub fn set_date(clock: Clock, year: u32, month: u32) -> After
    requires { Made clock }
    ensures { DatePost clock year month (outcome_of result.answer) result.clock }
{
    match settings::date_answer(clock.tabled, clock.stationed, year, month) {
        Ok(_) => {
            return prepare_month(clock, year, month);
        }
        Err(refused) => {
            return After {
                answer: Err(refused),
                clock,
            };
        }
    }
}

// The height at a minute of the month, in tenths of a millimetre; or a refusal.
pub fn height(clock: Clock, minute: u32) -> Result<i64, Refused>
    requires { Made clock }
    ensures { HeightPost clock minute (height_returned result) }
{
    height_lent(&clock, minute)
}

// The height of a lent clock, read where it lies: nothing of it is copied but five numbers.
pub fn height_lent(lent: &Clock, minute: u32) -> Result<i64, Refused>
    requires { Made lent.now }
    ensures { HeightPost lent.now minute (height_returned result) }
{
    // No `?`: `has-the-clock` of claim_runs cannot have std's code.
    if let Err(refused) = asked::height_answer(lent.there(), lent.last, minute as u64) {
        return Err(refused);
    }
    Ok(heights::height(lent.lent(), minute as u64))
}

// One height for each lent place, at start, start + step, start + 2 × step and so on; or a refusal.
pub fn series(clock: Clock, start: u32, step: u32, heights: &mut [i64]) -> Answer
    requires { Made clock }
    ensures { SeriesPost clock start step heights.old heights.new (outcome_of result) }
{
    // No `?`: `has-the-clock` of claim_runs cannot have std's code.
    if let Err(refused) = asked::series_answer(
        clock.there(),
        clock.last,
        start as u64,
        step as u64,
        heights.len(),
    ) {
        return Err(refused);
    }
    heights::months::series(clock.month_lent(), start as u64, step as u64, heights);
    Ok(())
}

// The height at each minute of a list, at its place; or a refusal. All minutes are asked before a height is written.
pub fn bookings(clock: Clock, minutes: &[u32], heights: &mut [i64]) -> Answer
    requires { Made clock }
    ensures { BookingsPost clock minutes.now heights.old heights.new (outcome_of result) }
{
    bookings_lent(&clock, minutes, heights)
}

// The bookings of a lent clock, read where it lies, as `height_lent` reads it.
pub fn bookings_lent(held: &Clock, minutes: &[u32], heights: &mut [i64]) -> Answer
    requires { Made held.now }
    ensures { BookingsPost held.now minutes.now heights.old heights.new (outcome_of result) }
{
    // No `?`: `has-the-clock` of claim_runs cannot have std's code.
    if let Err(refused) = bookings_answer(held.there(), held.last, minutes, heights.len()) {
        return Err(refused);
    }
    heights::bookings::heights_at(held.lent(), minutes, heights);
    Ok(())
}

// The month's hourly cards for the harbour office, under a station number, into the lent buffer from its front, and how many bytes they take; or
// a refusal.
pub fn hourly(clock: Clock, number: u32, cards: &mut [u8]) -> Result<usize, Refused>
    requires { Made clock }
    ensures { HourlyPost clock number cards.old cards.new (cards_returned result) }
{
    // No `?`: `has-the-clock` of claim_runs cannot have std's code.
    if let Err(refused) = hourly_answer(clock.there(), number) {
        return Err(refused);
    }
    monthcards::cards(clock.lent(), clock.year, clock.month, number, cards)
}

// The high and low waters from the first minute to the last, into the lent buffers from their front: how many, and whether the first is high; or
// a refusal.
pub fn turns(
    clock: Clock,
    first: u32,
    last: u32,
    minutes: &mut [u32],
    heights: &mut [i64],
) -> Result<Summary, Refused>
    requires { Made clock }
    ensures { TurnsPost clock first last minutes.old minutes.new heights.old heights.new (turns_returned result) }
{
    // No `?`: `has-the-clock` of claim_runs cannot have std's code.
    if let Err(refused) = asked::turns_answer(
        clock.there(),
        clock.last,
        first as u64,
        last as u64,
    ) {
        return Err(refused);
    }
    let reach = Reach {
        stride: station_stride(clock.table, clock.station),
        first: first as u64,
        last: last as u64,
    };
    turns::turns(clock.month_lent(), reach, minutes, heights)
}

// A year's sheet: one height for each lent place of the series, and the high and low waters of the search, as the months of the year have
// them, each with its own weights; or a refusal. (The clock is taken by value: its month stays.)
pub fn year(
    clock: Clock,
    sheet: Sheet,
    series: &mut [i64],
    minutes: &mut [u32],
    heights: &mut [i64],
) -> Result<Summary, Refused>
    requires { Made clock }
    ensures { YearPost clock sheet series.old series.new minutes.old minutes.new heights.old heights.new (turns_returned result) }
{
    // No `?`: `has-the-clock` of claim_runs cannot have std's code.
    if let Err(refused) = annual::year_answer(clock.tabled, clock.stationed, sheet.year) {
        return Err(refused);
    }
    yearsheet::sheet(
        &clock.cosines,
        clock.table,
        clock.station,
        sheet,
        series,
        minutes,
        heights,
    )
}

// The names of a table's frequencies.
fn names_of(table: Table) -> TableNames
    ensures { names_from result.bytes 0 result.count ≡ names_there (some (table_of table)) }
{
    let bytes = table.names;
    TableNames {
        count: table.frequencies,
        bytes,
    }
}

// The names of the clock's frequencies by place, none where it has no table. (No call of 01: it gives nothing of the tide, and the clock,
// which it takes by value, stays as it was.)
pub fn names(clock: Clock) -> TableNames
    requires { Made clock }
    ensures { names_from result.bytes 0 result.count ≡ names_in (view clock) }
{
    if clock.tabled {
        return names_of(clock.table);
    }
    TableNames {
        count: 0,
        bytes: [0u8; NAMES],
    }
}
