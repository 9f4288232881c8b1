// A call of a script, read whole from the input: its line, and behind it a card file's bytes, a station's lines or those of minutes.
ghost use Rattle.std.specs.Prelude.{◌≡◌, ◌+◌, ◌<◌, length, IfSome, IfOk};
ghost use Rattle.transcript.specs.inner.Window.{Within};
ghost use Rattle.transcript.specs.inner.Posts.{FilePost, LinePost, MinutesPost, HeardPost, Lent, kept_row};

use crate::input;
use crate::input::Window;
use limits::RECORDS;
use script::{Call, YearLine};
use station::records::{Record, Rows, no_rows, put};
use station::strides::Strides;
use std::io::Read;
use std::num::wrapping_add_u64;

// What a call asks. A card file stands in the buffer from the first place to the second; a station has a latitude, so many records, its strides and the first 146
// records; a series, a search and a year's sheet end with how many places they are lent; bookings have so many minutes, which stand in the lent places, and so many
// places for heights; hourly cards have a station number and so many bytes.
#[derive(Clone, Copy)]
pub enum Asked {
    Cards(usize, usize),
    Station(i32, usize, Strides, Rows),
    Date(u32, u32),
    Height(u32),
    Series(u32, u32, usize),
    Turns(u32, u32, usize, usize),
    Year(YearLine),
    Bookings(usize, usize),
    Hourly(u32, u32),
}

// What a call asks, and its input line.
#[derive(Clone, Copy)]
pub struct Heard {
    pub asked: Asked,
    pub line: u64,
}

// Why no call is heard: the input is at its end, or a line of it is not of the form.
#[derive(Clone, Copy)]
pub enum Halt {
    End,
    BadLine(u64),
}

// The next line, as it is parsed. Where that gives nothing, or the line has no LF, the window still begins with the line.
fn read_line<T, F: Fn(&[u8]) -> Option<T>>(
    input: &mut impl Read,
    buffer: &mut [u8],
    window: &mut Window,
    parse: F,
) -> Option<T>
    requires within { Within (length buffer.old) window.old }
    requires callable { F.IsAlwaysCallable parse }
    ensures { LinePost (length buffer.old) window.old window.new result }
{
    let end = input::next_line(input, buffer, window)?;
    let parsed = parse(&buffer[window.from..end])?;
    let line = window.line;
    input::behind(window, end, line);
    Some(parsed)
}

// The next line as a call. The window is behind it, if it has its LF.
fn read_call(input: &mut impl Read, buffer: &mut [u8], window: &mut Window) -> Option<Call>
    requires { Within (length buffer.old) window.old }
    ensures { Within (length buffer.old) window.new }
{
    let end = input::next_line(input, buffer, window)?;
    let call = script::parse_call(&buffer[window.from..end]);
    let line = window.line;
    input::behind(window, end, line);
    call
}

// So many bytes and LF: where the bytes stand, or the line of what is wrong. Line feeds inside the card file count as input lines.
fn read_file(
    input: &mut impl Read,
    buffer: &mut [u8],
    window: &mut Window,
    bytes: usize,
) -> Result<(usize, usize), u64>
    requires bytes_in_bounds { bytes < length buffer.old }
    requires within { Within (length buffer.old) window.old }
    ensures { FilePost (length buffer.old) bytes buffer.new window.new result }
{
    input::gather(input, buffer, window, bytes + 1);
    let from = window.from;
    let to = window.to;
    if to - from <= bytes {
        let feeds = input::feeds(buffer, from, to);
        return Err(wrapping_add_u64(window.line, feeds));
    }
    let end = from + bytes;
    let feeds = input::feeds(buffer, from, end);
    let line = wrapping_add_u64(window.line, feeds);
    input::behind(window, end, line);
    if buffer[end] != b'\n' {
        return Err(line);
    }
    Ok((from, end))
}

// The rows with record k, from 0; past the first 146 nothing is kept.
fn with_row(rows: Rows, k: usize, one: Record) -> Rows
    ensures { result ≡ kept_row rows k one.place one.amplitude one.phase }
{
    if RECORDS <= k {
        return rows;
    }
    put(rows, k, one)
}

// A station's lines, the first 146 as records. Where one is bad, the window begins with it.
fn read_records(
    input: &mut impl Read,
    buffer: &mut [u8],
    window: &mut Window,
    count: u32,
) -> Option<Rows>
    requires { Within (length buffer.old) window.old }
    ensures { Within (length buffer.old) window.new }
{
    let mut rows = no_rows();
    for k in 0..count {
        let record = read_line(input, buffer, window, script::parse_record)?;
        rows = with_row(rows, k as usize, record);
    }
    Some(rows)
}

// Minutes' lines, one for each of the lent places. Where one is bad, the window begins with it.
fn read_minutes(
    input: &mut impl Read,
    buffer: &mut [u8],
    window: &mut Window,
    minutes: &mut [u32],
) -> Option<()>
    requires { Within (length buffer.old) window.old }
    ensures { MinutesPost (length buffer.old) (length minutes.old) window.old window.new result }
{
    for minute in minutes.iter_mut() {
        *minute = read_line(input, buffer, window, script::parse_minute)?;
    }
    Some(())
}

// series START STEP COUNT, where so many places can be lent.
fn asked_series(places: usize, start: u32, step: u32, count: u32) -> Option<Asked>
    ensures { IfSome result (λ asked. Lent 0 0 places asked) }
{
    let n = count as usize;
    if places < n {
        return None;
    }
    Some(Asked::Series(start, step, n))
}

// turns FIRST LAST MINUTES HEIGHTS, where so many places can be lent.
fn asked_turns(
    minutes: usize,
    heights: usize,
    first: u32,
    last: u32,
    m: u32,
    h: u32,
) -> Option<Asked>
    ensures { IfSome result (λ asked. Lent 0 minutes heights asked) }
{
    let a = m as usize;
    let b = h as usize;
    if minutes < a || heights < b {
        return None;
    }
    Some(Asked::Turns(first, last, a, b))
}

// year YEAR START STEP COUNT FIRST LAST MINUTES HEIGHTS, where so many places can be lent: for the series as many as for the heights of turns.
fn asked_year(minutes: usize, heights: usize, line: YearLine) -> Option<Asked>
    ensures { IfSome result (λ asked. Lent 0 minutes heights asked) }
{
    if heights < line.count as usize {
        return None;
    }
    if minutes < line.minutes as usize || heights < line.heights as usize {
        return None;
    }
    Some(Asked::Year(line))
}

// What the call of a line asks, with what stands behind the line, for a program that lends these places for minutes and so many for heights; or the line of what is wrong.
fn hear(
    input: &mut impl Read,
    buffer: &mut [u8],
    window: &mut Window,
    call: Call,
    line: u64,
    minutes: &mut [u32],
    heights: usize,
) -> Result<Asked, u64>
    requires { Within (length buffer.old) window.old }
    ensures within { Within (length buffer.old) window.new }
    ensures lent { IfOk result (λ asked. Lent (length buffer.old) (length minutes.old) heights asked) }
{
    match call {
        // A file that the buffer cannot hold is not of the form.
        Call::Cards(bytes) => {
            let n = bytes as usize;
            if buffer.len() <= n {
                return Err(line);
            }
            let (from, end) = read_file(input, buffer, window, n)?;
            Ok(Asked::Cards(from, end))
        }
        Call::Station(latitude, count, strides) => {
            match read_records(input, buffer, window, count) {
                Some(rows) => Ok(Asked::Station(latitude, count as usize, strides, rows)),
                None => Err(window.line),
            }
        }
        Call::Date(year, month) => Ok(Asked::Date(year, month)),
        Call::Height(minute) => Ok(Asked::Height(minute)),
        Call::Series(start, step, count) => asked_series(heights, start, step, count).ok_or(line),
        Call::Turns(first, last, m, h) => {
            asked_turns(minutes.len(), heights, first, last, m, h).ok_or(line)
        }
        Call::Year(year) => asked_year(minutes.len(), heights, year).ok_or(line),
        Call::Bookings(count, h) => {
            let n = count as usize;
            if minutes.len() < n || heights < h as usize {
                return Err(line);
            }
            match read_minutes(input, buffer, window, &mut minutes[..n]) {
                Some(()) => Ok(Asked::Bookings(n, h as usize)),
                None => Err(window.line),
            }
        }
        Call::Hourly(station, bytes) => Ok(Asked::Hourly(station, bytes)),
    }
}

// The next call, for a program that lends these places for minutes and so many for heights. Only the minutes of bookings are read into the places. At the end of
// the input there is no call.
pub fn next_call(
    input: &mut impl Read,
    buffer: &mut [u8],
    window: &mut Window,
    minutes: &mut [u32],
    heights: usize,
) -> Result<Heard, Halt>
    requires { Within (length buffer.old) window.old }
    ensures { HeardPost (length buffer.old) (length minutes.old) heights window.new result }
{
    input::gather(input, buffer, window, 1);
    if window.to <= window.from {
        return Err(Halt::End);
    }
    let line = window.line;
    let call = read_call(input, buffer, window).ok_or(Halt::BadLine(line))?;
    let heard = hear(input, buffer, window, call, line, minutes, heights);
    let asked = heard.map_err(Halt::BadLine)?;
    Ok(Heard { asked, line })
}
