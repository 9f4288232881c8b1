// Plays a script of calls to a clock that starts with no table, and writes a line for each call, hourly cards behind theirs.
//
// It takes a card file of 262,143 bytes and 65,536 places in each lent buffer. What asks for more ends the run as a line that is not of the form does; but hourly cards may ask for any buffer.
#![tactic(auto)]

ghost use Rattle.std.specs.Prelude.{◌≡◌, ◌≤◌, length};
ghost use Rattle.clock.specs.View.{Made};
ghost use Rattle.hourly.specs.Answers.{cards_returned};
ghost use Rattle.refusals.specs.Outcome.{on_accepted};
ghost use Rattle.transcript.specs.inner.Posts.{Lent};

use calls::annual::Sheet;
use clock::{After, Clock};
use hourly::LONGEST;
use refusals::Refused;
use script::YearLine;
use std::io;
use std::io::Read;
use transcript::reading::{Asked, Halt};
use transcript::{answers, input, reading};
use turns::Summary;

// The places that are lent: for a year's series, for minutes and for heights.
#[derive(Drop)]
struct Places<'a> {
    series: &'a mut [i64],
    minutes: &'a mut [u32],
    heights: &'a mut [i64],
}

// The line of a call that sets something, and the clock as the call leaves it.
fn put_after(
    rt: &impl Print,
    clock: &mut Clock,
    after: After,
    page: &mut [u8],
    at: usize,
) -> io::Result<usize>
    requires { Made after.clock }
    ensures { (clock.new ≡ after.clock) × Made clock.new }
{
    *clock = after.clock;
    answers::put_answer(rt, page, at, after.answer)
}

// A height, or its refusal.
fn put_height(
    rt: &impl Print,
    page: &mut [u8],
    at: usize,
    answer: Result<i64, Refused>,
) -> io::Result<usize> {
    match answer {
        Ok(height) => answers::put_height(rt, page, at, height),
        Err(refused) => answers::put_refused(rt, page, at, refused),
    }
}

// The turns found, or the refusal.
fn put_turns(
    rt: &impl Print,
    page: &mut [u8],
    at: usize,
    answer: Result<Summary, Refused>,
    minutes: &[u32],
    heights: &[i64],
) -> io::Result<usize> {
    match answer {
        Ok(turns) => { answers::put_turns(rt, page, at, turns.count, turns.high, minutes, heights) }
        Err(refused) => answers::put_refused(rt, page, at, refused),
    }
}

// The heights of a year's series and the turns of its search, or the refusal.
fn put_sheet(
    rt: &impl Print,
    page: &mut [u8],
    at: usize,
    answer: Result<Summary, Refused>,
    series: &[i64],
    minutes: &[u32],
    heights: &[i64],
) -> io::Result<usize> {
    if answer.is_err() {
        return put_turns(rt, page, at, answer, minutes, heights);
    }
    let next = answers::put_year(rt, page, at, series)?;
    put_turns(rt, page, next, answer, minutes, heights)
}

// The year's sheet that a line asks. (No From: both types are other crates'.)
fn sheet_of(line: YearLine) -> Sheet {
    Sheet {
        year: line.year,
        start: line.start,
        step: line.step,
        first: line.first,
        last: line.last,
    }
}

// The line of a year's sheet, which is worked out in as many of the places as its line asks.
fn year_call(
    rt: &impl Print,
    clock: &Clock,
    line: YearLine,
    places: Places,
    page: &mut [u8],
    at: usize,
) -> io::Result<usize>
    requires made { Made clock.now }
    requires lent { (line.count ≤ length places.series.now) × (line.minutes ≤ length places.minutes.now) × (line.heights ≤ length places.heights.now) }
{
    let Places {
        series,
        minutes,
        heights,
    } = places;
    let series = &mut series[..line.count as usize];
    let minutes = &mut minutes[..line.minutes as usize];
    let heights = &mut heights[..line.heights as usize];
    let answer = clock::year(*clock, sheet_of(line), series, minutes, heights);
    put_sheet(rt, page, at, answer, series, minutes, heights)
}

// The hourly cards in the lent bytes, or the refusal.
fn put_cards(
    rt: &impl Print,
    page: &mut [u8],
    at: usize,
    answer: Result<usize, Refused>,
    cards: &[u8],
) -> io::Result<usize>
    requires { on_accepted (cards_returned answer) (λ count. count) 0 ≤ length cards.now }
{
    match answer {
        Ok(count) => answers::put_hourly(rt, page, at, &cards[..count]),
        Err(refused) => answers::put_refused(rt, page, at, refused),
    }
}

// The bytes for hourly cards.
fn card_places() -> [u8; LONGEST]
    ensures { 4278 ≡ length result }
{
    [0; LONGEST]
}

// The answer of hourly cards, in as many bytes as their line asks. To ask more than the longest month's cards take makes no difference.
fn hourly_call(
    rt: &impl Print,
    clock: &Clock,
    number: u32,
    bytes: u32,
    page: &mut [u8],
    at: usize,
) -> io::Result<usize>
    requires { Made clock.now }
{
    let mut cards = card_places();
    let lent = &mut cards[..output::on_page(LONGEST, bytes as usize)];
    let answer = clock::hourly(*clock, number, lent);
    put_cards(rt, page, at, answer, lent)
}

// The line of a search for turns, which are written into as many of the places as its line asks.
fn turns_call(
    rt: &impl Print,
    clock: &Clock,
    first: u32,
    last: u32,
    minutes: &mut [u32],
    heights: &mut [i64],
    page: &mut [u8],
    at: usize,
) -> io::Result<usize>
    requires { Made clock.now }
{
    let answer = clock::turns(*clock, first, last, minutes, heights);
    put_turns(rt, page, at, answer, minutes, heights)
}

// The answer to a call, and the clock as the call leaves it.
fn answer_call(
    rt: &impl Print,
    clock: &mut Clock,
    asked: Asked,
    buffer: &[u8],
    places: Places,
    page: &mut [u8],
    at: usize,
) -> io::Result<usize>
    requires made { Made clock.old }
    requires lent { Lent (length buffer.now) (length places.minutes.now) (length places.heights.now) asked }
    requires series_len { length places.series.now ≡ length places.heights.now }
    ensures { Made clock.new }
{
    let Places {
        series,
        minutes,
        heights,
    } = places;
    match asked {
        Asked::Cards(from, end) => {
            let after = clock::load_cards(*clock, &buffer[from..end]);
            put_after(rt, clock, after, page, at)
        }
        Asked::Station(latitude, count, strides, rows) => {
            let after = clock::place_station(*clock, latitude, strides, count, rows);
            put_after(rt, clock, after, page, at)
        }
        Asked::Date(year, month) => {
            let after = clock::set_date(*clock, year, month);
            put_after(rt, clock, after, page, at)
        }
        Asked::Height(minute) => put_height(rt, page, at, clock::height(*clock, minute)),
        Asked::Series(start, step, n) => {
            let heights = &mut heights[..n];
            let answer = clock::series(*clock, start, step, heights);
            answers::put_series(rt, page, at, answer, heights)
        }
        Asked::Turns(first, last, m, h) => {
            let minutes = &mut minutes[..m];
            turns_call(rt, clock, first, last, minutes, &mut heights[..h], page, at)
        }
        Asked::Year(line) => {
            let lent = Places {
                series,
                minutes,
                heights,
            };
            year_call(rt, clock, line, lent, page, at)
        }
        Asked::Bookings(n, h) => {
            let heights = &mut heights[..h];
            let answer = clock::bookings(*clock, &minutes[..n], heights);
            answers::put_series(rt, page, at, answer, heights)
        }
        Asked::Hourly(number, bytes) => hourly_call(rt, clock, number, bytes, page, at),
    }
}

// Calls until the run ends. A proved loop has to end, and nothing says that the input does, so the calls are counted down from a number that no run uses up.
fn run(
    rt: &impl Print,
    input: &mut impl Read,
    buffer: &mut [u8],
    places: Places,
    page: &mut [u8],
) -> io::Result<()>
    requires { length places.series.now ≡ length places.heights.now }
{
    let Places {
        series,
        minutes,
        heights,
    } = places;
    let mut clock = clock::new();
    let mut window = input::start();
    let mut at = 0;
    for _call in 0..u64::MAX {
        let asked = match reading::next_call(input, buffer, &mut window, minutes, heights.len()) {
            Ok(heard) => heard.asked,
            Err(Halt::End) => break,
            Err(Halt::BadLine(line)) => {
                at = answers::put_script(rt, page, at, line)?;
                break;
            }
        };
        let lent = Places {
            series,
            minutes,
            heights,
        };
        at = answer_call(rt, &mut clock, asked, buffer, lent, page, at)?;
    }
    output::flush(rt, page, at)?;
    Ok(())
}

// The buffer for the input. (A function's result, so that its length is known as a fact and the zeros are never counted in a proof.)
fn input_buffer() -> [u8; 262144]
    ensures { 262144 ≡ length result }
{
    [0; 262144]
}

// The places for minutes.
// (It and `height_places`: one of any type would take its zero as a parameter, and a zero says less of what the places are for than these names.)
fn minute_places() -> [u32; 65536]
    ensures { 65536 ≡ length result }
{
    [0; 65536]
}

// The places for heights.
fn height_places() -> [i64; 65536]
    ensures { 65536 ≡ length result }
{
    [0; 65536]
}

fn main(rt: HostRuntime) -> io::Result<()> {
    let mut buffer = input_buffer();
    let mut series = height_places();
    let mut minutes = minute_places();
    let mut heights = height_places();
    let mut page = [0u8; 65536];
    let places = Places {
        series: &mut series,
        minutes: &mut minutes,
        heights: &mut heights,
    };
    run(&rt, &mut rt.stdin(), &mut buffer, places, &mut page)
}
