// Shows what prepared months are made of: plays the card files, stations and dates of a script, and writes V, P and Q of each record for each date.
//
// It keeps a table and a station beside the clock's own questions (`calls`), so that the months can be compared with the second code where no height is. Any other call ends the run.
#![tactic(auto)]

ghost use Rattle.std.specs.Prelude.{◌≡◌, true, length};
ghost use Rattle.calendar.specs.Calendar.{in_range};
ghost use Rattle.transcript.specs.inner.Posts.{Lent};
ghost use Rattle.transcript.specs.inner.Window.{Within};

use calls::settings;
use card_file::reader;
use month_prepared::Month;
use refusals::Answer;
use station::records::Rows;
use station::strides::Strides;
use station::{Station, strides};
use std::io;
use std::io::Read;
use table::Table;
use transcript::input::Window;
use transcript::reading::{Asked, Halt};
use transcript::{answers, input, reading};

// What the calls leave: a table and a station, where there are.
#[derive(Clone, Copy)]
struct Kept {
    table: Option<Table>,
    station: Option<Station>,
}

impl Kept {
    // The table, or one with no cards.
    fn some_table(&self) -> Table {
        self.table.unwrap_or_else(table::no_cards)
    }

    // The station, or one with no records.
    fn some_station(&self) -> Station {
        self.station
            .unwrap_or_else(|| station::no_station(0, strides::usual()))
    }
}

// A card file: its table takes the place of the old one, with no station; or it is refused.
fn load_cards(kept: &mut Kept, file: &[u8]) -> Answer {
    let table = reader::read_cards(file)?;
    *kept = Kept {
        table: Some(table),
        station: None,
    };
    Ok(())
}

// A station of n records, of which the first 146 are in the rows; or it is refused.
fn place_station(kept: &mut Kept, latitude: i32, strides: Strides, n: usize, rows: Rows) -> Answer {
    let tabled = kept.table.is_some();
    let table = kept.some_table();
    let station = settings::station_answer(tabled, table, latitude, strides, n, rows)?;
    kept.station = Some(station);
    Ok(())
}

// A blank, V, a blank, P, a blank and Q.
fn put_constituent(
    rt: &impl Print,
    page: &mut [u8],
    at: usize,
    argument: u64,
    p: i32,
    q: i32,
) -> io::Result<usize> {
    let first = output::put(rt, page, at, b' ')?;
    let second = output::put_number(rt, page, first, argument)?;
    let third = output::put(rt, page, second, b' ')?;
    let fourth = output::put_signed(rt, page, third, i64::from(p))?;
    let fifth = output::put(rt, page, fourth, b' ')?;
    output::put_signed(rt, page, fifth, i64::from(q))
}

// month V0 P0 Q0 V1 P1 Q1 ...
fn put_month(rt: &impl Print, page: &mut [u8], at: usize, month: Month) -> io::Result<usize> {
    let mut next = output::put_bytes(rt, page, at, b"month")?;
    for i in 0..month_prepared::held(month.count) {
        next = put_constituent(rt, page, next, month.arguments[i], month.ps[i], month.qs[i])?;
    }
    output::put(rt, page, next, b'\n')
}

// What a date in range says: its month, or refused 11 PLACE.
fn put_prepared(
    rt: &impl Print,
    page: &mut [u8],
    at: usize,
    kept: &Kept,
    year: u32,
    month: u32,
) -> io::Result<usize>
    requires { in_range year month ≡ true }
{
    let cosines = cosine::cosines();
    let prepared = month::prepare(
        &cosines,
        kept.some_table(),
        kept.some_station(),
        year,
        month,
    );
    match prepared {
        Ok(made) => put_month(rt, page, at, made),
        Err(_) => answers::put_answer(rt, page, at, settings::month_answer(prepared)),
    }
}

// What a date says: its month, or refused NUMBER PLACE.
fn put_date(
    rt: &impl Print,
    page: &mut [u8],
    at: usize,
    kept: &Kept,
    year: u32,
    month: u32,
) -> io::Result<usize> {
    let tabled = kept.table.is_some();
    let stationed = kept.station.is_some();
    match settings::date_answer(tabled, stationed, year, month) {
        Ok(()) => put_prepared(rt, page, at, kept, year, month),
        Err(refused) => answers::put_refused(rt, page, at, refused),
    }
}

// The answer to a card file, a station or a date. Any other call has none.
fn answer_call(
    rt: &impl Print,
    kept: &mut Kept,
    asked: Asked,
    buffer: &[u8],
    page: &mut [u8],
    at: usize,
) -> io::Result<Option<usize>>
    requires { Lent (length buffer.now) 0 0 asked }
{
    let next = match asked {
        Asked::Cards(from, end) => {
            let answer = load_cards(kept, &buffer[from..end]);
            answers::put_answer(rt, page, at, answer)?
        }
        Asked::Station(latitude, count, strides, rows) => {
            let answer = place_station(kept, latitude, strides, count, rows);
            answers::put_answer(rt, page, at, answer)?
        }
        Asked::Date(year, month) => put_date(rt, page, at, kept, year, month)?,
        _ => return Ok(None),
    };
    Ok(Some(next))
}

// The next call with its answer on the page; or why the run ends, at the end of the input or at a line.
fn answer_next(
    rt: &impl Print,
    input: &mut impl Read,
    buffer: &mut [u8],
    window: &mut Window,
    kept: &mut Kept,
    page: &mut [u8],
    at: usize,
) -> io::Result<Result<usize, Halt>>
    requires { Within (length buffer.old) window.old }
    ensures { Within (length buffer.old) window.new }
{
    // No bookings are answered, so no place is lent for their minutes.
    let heard = match reading::next_call(input, buffer, window, &mut [], 0) {
        Ok(heard) => heard,
        Err(halt) => return Ok(Err(halt)),
    };
    match answer_call(rt, kept, heard.asked, buffer, page, at)? {
        Some(next) => Ok(Ok(next)),
        None => Ok(Err(Halt::BadLine(heard.line))),
    }
}

// Calls until the run ends. A proved loop has to end, and nothing says that the input does, so the calls are counted down from a number that no run uses up.
fn run(
    rt: &impl Print,
    input: &mut impl Read,
    buffer: &mut [u8],
    page: &mut [u8],
) -> io::Result<()> {
    let mut kept = Kept {
        table: None,
        station: None,
    };
    let mut window = input::start();
    let mut at = 0;
    for _call in 0..u64::MAX {
        match answer_next(rt, input, buffer, &mut window, &mut kept, page, at)? {
            Ok(next) => at = next,
            Err(Halt::End) => break,
            Err(Halt::BadLine(line)) => {
                at = answers::put_script(rt, page, at, line)?;
                break;
            }
        }
    }
    output::flush(rt, page, at)?;
    Ok(())
}

// The buffer for the input. (A function's result, so that its length is known as a fact and the zeros are never counted in a proof.)
fn input_buffer() -> [u8; 262144]
    ensures { 262144 ≡ length result }
{
    [0; 262144]
}

fn main(rt: HostRuntime) -> io::Result<()> {
    let mut buffer = input_buffer();
    let mut page = [0u8; 65536];
    run(&rt, &mut rt.stdin(), &mut buffer, &mut page)
}
