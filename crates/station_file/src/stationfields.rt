// The two cards of the station file (001, section 3.3): the station card's latitude, and the record of a constituent card.
ghost use Rattle.std.specs.Prelude.{◌≡◌, ◌≤◌, min, ◌||◌, eqb, nat_abs};
ghost use Rattle.limits.specs.Limits.{most_frequencies};
ghost use Rattle.columns.specs.Bytes.{blank};
ghost use Rattle.columns.specs.Names.{names_from};
ghost use Rattle.fields.specs.Number.{signed};
ghost use Rattle.card.specs.inner.Answers.{card_gives};
ghost use Rattle.card.specs.inner.Lines.{next_gives};
ghost use Rattle.station_file.specs.Cards.{south_letter, north_letter, mark_good, minus_before, south_mark, side_of, is_south, in_minutes, latitude_fields, station_card, record_fields, next_record};

use crate::formats;
use card::faults::{Fault, Trouble, What};
use card::lines::{Opening, begins};
use card::{faults, natural_field, small_field};
use columns::names;
use limits::{FREQUENCIES, RECORDS};
use station::records::Record;

// Whether a byte is a blank.
fn is_blank(byte: u8) -> bool
    ensures { result ≡ blank byte }
{
    byte == b' '
}

// Whether it is one of two.
fn is_either(byte: u8, one: u8, other: u8) -> bool
    ensures { result ≡ (eqb byte one || eqb byte other) }
{
    if byte == one {
        return true;
    }
    byte == other
}

// Whether it is an S or an s.
fn is_south_letter(byte: u8) -> bool
    ensures { result ≡ south_letter byte }
{
    is_either(byte, b'S', b's')
}

// Whether it is an N or an n.
fn is_north_letter(byte: u8) -> bool
    ensures { result ≡ north_letter byte }
{
    is_either(byte, b'N', b'n')
}

// Whether two columns hold blanks and at most one letter.
fn is_mark(first: u8, second: u8) -> bool
    ensures { result ≡ mark_good first second }
{
    if is_blank(second) {
        if is_blank(first) {
            return true;
        }
        if is_south_letter(first) {
            return true;
        }
        return is_north_letter(first);
    }
    if is_blank(first) {
        if is_south_letter(second) {
            return true;
        }
        return is_north_letter(second);
    }
    false
}

// Whether a minus stands before the degrees, or in their first column.
fn is_minus_before(line: &[u8]) -> bool
    ensures { result ≡ minus_before line.now }
{
    if columns::column(line, formats::MINUS) == b'-' {
        return true;
    }
    columns::column(line, formats::DEGREES) == b'-'
}

// Whether one of two bytes is an S or an s.
fn has_south_letter(first: u8, second: u8) -> bool
    ensures { result ≡ south_mark first second }
{
    if is_south_letter(first) {
        return true;
    }
    is_south_letter(second)
}

// South by a minus or by a letter, not by both.
fn side_of(minus: bool, letter: bool) -> Result<bool, Fault>
    ensures { card_gives (λ south. south) result ≡ side_of minus letter }
{
    if minus {
        if letter {
            return Err(faults::only(What::Mark, Trouble::SouthTwice));
        }
        return Ok(true);
    }
    Ok(letter)
}

// Whether the latitude on a station card is south.
fn side_on(line: &[u8]) -> Result<bool, Fault>
    ensures { card_gives (λ south. south) result ≡ is_south line.now }
{
    let first = columns::column(line, formats::MARK);
    let second = columns::column(line, formats::SECOND_MARK);
    if is_mark(first, second) {
        return side_of(is_minus_before(line), has_south_letter(first, second));
    }
    Err(faults::only(What::Mark, Trouble::BadMark))
}

// The size of the degrees.
fn size_of(degrees: i8) -> u64
    ensures value { result ≡ nat_abs degrees }
    ensures upper_bound { result ≤ 128 }
{
    angles::size(degrees as i64)
}

// Degrees and minutes as minutes, with their sign.
fn minutes_of(south: bool, degrees: u64, minutes: u64) -> i32
    requires { (degrees ≤ 128) × (minutes ≤ 59) }
    ensures { result ≡ signed south (in_minutes degrees minutes) }
{
    let size = (60 * degrees + minutes) as i32;
    if south {
        return 0 - size;
    }
    size
}

// The latitude on a station card whose line is as it should be, in minutes.
fn latitude_fields(line: &[u8]) -> Result<i32, Fault>
    ensures { card_gives (λ minutes. minutes) result ≡ latitude_fields line.now }
{
    let degrees = small_field(line, formats::degrees())?;
    let minutes = natural_field(line, formats::minutes())?;
    let south = side_on(line)?;
    Ok(minutes_of(south, size_of(degrees), minutes))
}

// The station card: its latitude in minutes, or what is wrong with it.
pub fn station_card(line: &[u8]) -> Result<i32, Fault>
    ensures { card_gives (λ minutes. minutes) result ≡ station_card line.now }
{
    if columns::line_good(line) {
        return latitude_fields(line);
    }
    Err(faults::bad_line(line))
}

// The record on a constituent card: name, amplitude, phase lag.
fn record_fields(line: &[u8], names: &[u8], frequencies: usize) -> Result<Record, Fault>
    requires { frequencies ≤ most_frequencies }
    ensures { card_gives (λ r. r) result ≡ record_fields (names_from names.now 0 frequencies) line.now }
{
    let name = names::name_part(line, formats::CONSTITUENT_NAME);
    let Some(place) = names::find_name(name, names, frequencies) else {
        return Err(faults::only(What::Name, Trouble::NoFrequency));
    };
    let amplitude = natural_field(line, formats::amplitude())?;
    let phase = natural_field(line, formats::phase_lag())?;
    Ok(Record {
        place: place as u8,
        amplitude: amplitude as u32,
        phase: phase as u32,
    })
}

// The next constituent card, after `count` of them; none where it ends them. The names are rows of five bytes, one for each frequency of the card
// file, which has no more than 160.
pub fn record_card(
    line: &[u8],
    names: &[u8],
    frequencies: usize,
    count: usize,
) -> Result<Option<Record>, Fault>
    ensures { next_gives (λ r. r) result ≡ next_record (names_from names.now 0 (min frequencies most_frequencies)) count line.now }
{
    match begins(line, count, RECORDS, Trouble::TooManyRecords)? {
        Opening::Ends => Ok(None),
        Opening::Fields => {
            let record = record_fields(line, names, frequencies.min(FREQUENCIES))?;
            Ok(Some(record))
        }
    }
}
