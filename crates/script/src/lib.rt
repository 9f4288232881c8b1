// The lines of a replay script: each read as a call, as a record of a station, or as a minute of a list of bookings.
#![tactic(auto)]

ghost use Rattle.std.specs.Prelude.{◌≡◌, ◌∷◌, ◌+◌, ◌-◌, ◌≤◌, ◌^◌, length, pos, neg_ℤ};
ghost use Rattle.columns.specs.Names.{same};
ghost use Rattle.script.specs.Script.{call_of, call_of_words, record_of, has_minus, with_strides, station_at, station_of, cards_of, date_of, height_of, series_of, turns_of, year_of, bookings_of, hourly_of, minute_of};
ghost use Rattle.script.specs.inner.Left.{words_from};

mod words; // words and decimal numbers

use crate::words::{field_at, numbers_at, word_end};
use station::records::Record;
use station::strides;
use station::strides::Strides;

// year YEAR START STEP COUNT FIRST LAST MINUTES HEIGHTS
#[derive(Clone, Copy)]
pub struct YearLine {
    pub year: u32,
    pub start: u32,
    pub step: u32,
    pub count: u32,
    pub first: u32,
    pub last: u32,
    pub minutes: u32,
    pub heights: u32,
}

// A line's call: its word and its numbers.
#[derive(Clone, Copy)]
pub enum Call {
    Cards(u32),
    Station(i32, u32, Strides),
    Date(u32, u32),
    Height(u32),
    Series(u32, u32, u32),
    Turns(u32, u32, u32, u32),
    Year(YearLine),
    Bookings(u32, u32),
    Hourly(u32, u32),
}

// cards BYTES
fn cards_at(line: &[u8], at: usize) -> Option<Call>
    ensures { result ≡ cards_of (words_from line.now at) }
{
    let [bytes] = numbers_at::<1>(line, at)?;
    Some(Call::Cards(bytes))
}

// date YEAR MONTH
fn date_at(line: &[u8], at: usize) -> Option<Call>
    ensures { result ≡ date_of (words_from line.now at) }
{
    let [year, month] = numbers_at::<2>(line, at)?;
    Some(Call::Date(year, month))
}

// height MINUTE
fn height_at(line: &[u8], at: usize) -> Option<Call>
    ensures { result ≡ height_of (words_from line.now at) }
{
    let [minute] = numbers_at::<1>(line, at)?;
    Some(Call::Height(minute))
}

// series START STEP COUNT
fn series_at(line: &[u8], at: usize) -> Option<Call>
    ensures { result ≡ series_of (words_from line.now at) }
{
    let [start, step, count] = numbers_at::<3>(line, at)?;
    Some(Call::Series(start, step, count))
}

// turns FIRST LAST MINUTES HEIGHTS
fn turns_at(line: &[u8], at: usize) -> Option<Call>
    ensures { result ≡ turns_of (words_from line.now at) }
{
    let [first, last, minutes, heights] = numbers_at::<4>(line, at)?;
    Some(Call::Turns(first, last, minutes, heights))
}

// year YEAR START STEP COUNT FIRST LAST MINUTES HEIGHTS
fn year_at(line: &[u8], at: usize) -> Option<Call>
    ensures { result ≡ year_of (words_from line.now at) }
{
    let [year, start, step, count, first, last, minutes, heights] = numbers_at::<8>(line, at)?;
    Some(Call::Year(YearLine {
        year,
        start,
        step,
        count,
        first,
        last,
        minutes,
        heights,
    }))
}

// bookings COUNT HEIGHTS
fn bookings_at(line: &[u8], at: usize) -> Option<Call>
    ensures { result ≡ bookings_of (words_from line.now at) }
{
    let [count, heights] = numbers_at::<2>(line, at)?;
    Some(Call::Bookings(count, heights))
}

// hourly STATION BYTES
fn hourly_at(line: &[u8], at: usize) -> Option<Call>
    ensures { result ≡ hourly_of (words_from line.now at) }
{
    let [station, bytes] = numbers_at::<2>(line, at)?;
    Some(Call::Hourly(station, bytes))
}

// A latitude without a minus.
fn north(size: u32) -> i32
    requires { size ≤ 2 ^ 31 - 1 }
    ensures { result ≡ pos size }
{
    size as i32
}

// A latitude with a minus.
fn south(size: u32) -> i32
    requires { size ≤ 2 ^ 31 }
    ensures { result ≡ neg_ℤ (pos size) }
{
    (0 - size as i64) as i32
}

// SEMIDIURNAL MIXED DIURNAL, behind a station's count.
fn strides_at(line: &[u8], at: usize, latitude: i32, count: u32) -> Option<Call>
    ensures { result ≡ with_strides latitude count (words_from line.now at) }
{
    let [semidiurnal, mixed, diurnal] = numbers_at::<3>(line, at)?;
    let strides = Strides {
        semidiurnal,
        mixed,
        diurnal,
    };
    Some(Call::Station(latitude, count, strides))
}

// A station's count, behind its latitude, and its strides: the usual ones where the line ends there.
fn station_at(line: &[u8], at: usize, latitude: i32) -> Option<Call>
    ensures { result ≡ station_at latitude (words_from line.now at) }
{
    let count = field_at(line, at, u32::MAX)?;
    if line.len() < count.next {
        return Some(Call::Station(latitude, count.value, strides::usual()));
    }
    strides_at(line, count.next, latitude, count.value)
}

// Whether a minus stands at a byte of a line.
fn minus_at(line: &[u8], at: usize) -> bool
    ensures { result ≡ has_minus (words_from line.now at) }
{
    if at < line.len() {
        return line[at] == b'-';
    }
    false
}

// station LATITUDE COUNT, or station LATITUDE COUNT SEMIDIURNAL MIXED DIURNAL
fn latitude_at(line: &[u8], at: usize) -> Option<Call>
    requires { at ≤ length line.now + 1 }
    ensures { result ≡ station_of (words_from line.now at) }
{
    if minus_at(line, at) {
        let southern = field_at(line, at + 1, 2_147_483_648)?;
        return station_at(line, southern.next, south(southern.value));
    }
    let northern = field_at(line, at, 2_147_483_647)?;
    station_at(line, northern.next, north(northern.value))
}

// Whether a word is the one of a name.
fn is_word(word: &[u8], name: &[u8]) -> bool
    ensures { result ≡ same word.now name.now }
{
    word == name
}

// The call of a word and of the numbers at a byte of a line. (No match on the words: it compares letter by letter, and leaves a goal for each.)
#[tactic(auto, unfolding(crate::specs::Script::call_of_words))]
fn call_at(word: &[u8], line: &[u8], at: usize) -> Option<Call>
    requires { at ≤ length line.now + 1 }
    ensures { result ≡ call_of_words (word.now ∷ words_from line.now at) }
{
    if is_word(word, b"cards") {
        return cards_at(line, at);
    }
    if is_word(word, b"station") {
        return latitude_at(line, at);
    }
    if is_word(word, b"date") {
        return date_at(line, at);
    }
    if is_word(word, b"height") {
        return height_at(line, at);
    }
    if is_word(word, b"series") {
        return series_at(line, at);
    }
    if is_word(word, b"turns") {
        return turns_at(line, at);
    }
    if is_word(word, b"year") {
        return year_at(line, at);
    }
    if is_word(word, b"bookings") {
        return bookings_at(line, at);
    }
    if is_word(word, b"hourly") {
        return hourly_at(line, at);
    }
    None
}

// A line of a script, without its LF, as a call: none where it is not of the form.
pub fn parse_call(line: &[u8]) -> Option<Call>
    ensures { result ≡ call_of line.now }
{
    let end = word_end(line, 0);
    call_at(&line[..end], line, end + 1)
}

// A line of a station, without its LF: none where it is not of the form.
pub fn parse_record(line: &[u8]) -> Option<Record>
    ensures { result ≡ record_of line.now }
{
    let place = field_at(line, 0, 255)?;
    let [amplitude, phase] = numbers_at::<2>(line, place.next)?;
    Some(Record {
        place: place.value as u8,
        amplitude,
        phase,
    })
}

// A minute's line behind a list of bookings, without its LF: no number where it is not of the form.
pub fn parse_minute(line: &[u8]) -> Option<u32>
    ensures { result ≡ minute_of line.now }
{
    let [minute] = numbers_at::<1>(line, 0)?;
    Some(minute)
}
