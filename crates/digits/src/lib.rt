// The figures on a sheet as short rows of bytes: heights, rounded, with their decimals; days and times of day; dates and names of months; texts.
#![tactic(auto)]

ghost use Rattle.std.specs.Prelude.{◌≡◌, get_or, pos};
ghost use Rattle.digits.specs.Digits.{thousandths, last_digit, day_of, hour_of, time_of_day, time_on_day, latitude_end, three_decimals, four_decimals};

pub mod dates; // dates, and names of months
pub mod texts; // texts of a station card

// A height's size in thousandths of the unit, from tenths of thousandths; a half is rounded up.
pub fn thousandths(size: u64) -> u64
    ensures { result ≡ thousandths size }
{
    let whole = size / 10;
    if size % 10 < 5 { whole } else { whole + 1 }
}

// The character of a number's last digit.
pub fn last_digit(number: u64) -> u8
    ensures { result ≡ last_digit number }
{
    b'0' + (number % 10) as u8
}

// The day of the month in which a minute lies, from 1.
pub fn day_of(minute: u32) -> u32
    ensures { result ≡ day_of minute }
{
    minute / 1_440 + 1
}

// The hour of its day.
fn hour_of(minute: u32) -> u32
    ensures { result ≡ hour_of minute }
{
    minute % 1_440 / 60
}

// The time of day of a minute of the month, HH:MM.
pub fn time_of_day(minute: u32) -> [u8; 5]
    ensures { result ≡ time_of_day minute }
{
    let hour = u64::from(hour_of(minute));
    let past = u64::from(minute % 60);
    [
        last_digit(hour / 10),
        last_digit(hour),
        b':',
        last_digit(past / 10),
        last_digit(past),
    ]
}

// A time on a day: the end of the day is its 24:00.
pub fn time_on_day(day: u32, minute: u32) -> [u8; 5]
    ensures { result ≡ time_on_day day minute }
{
    if day_of(minute) <= day {
        return time_of_day(minute);
    }
    *b"24:00"
}

// What stands behind the degrees of a latitude of a size in minutes: " deg ", the minutes past the degree, "' ", and N or S.
pub fn latitude_end(size: u64, south: bool) -> [u8; 10]
    ensures { result ≡ latitude_end size south }
{
    let past = size % 60;
    [
        b' ',
        b'd',
        b'e',
        b'g',
        b' ',
        last_digit(past / 10),
        last_digit(past),
        b'\'',
        b' ',
        if south { b'S' } else { b'N' },
    ]
}

// The point and the decimals of a height in thousandths.
pub fn three_decimals(rounded: u64) -> [u8; 4]
    ensures { result ≡ three_decimals rounded }
{
    [
        b'.',
        last_digit(rounded / 100),
        last_digit(rounded / 10),
        last_digit(rounded),
    ]
}

// The point and the decimals of a height in tenths of thousandths.
pub fn four_decimals(size: u64) -> [u8; 5]
    ensures { result ≡ four_decimals size }
{
    [
        b'.',
        last_digit(size / 100 / 10),
        last_digit(size / 100),
        last_digit(size / 10),
        last_digit(size),
    ]
}

// The minute at a place of a row; 0 past its end. (It and `height_at` are one call of the library at two types: one for both would take the zero as a parameter in each call, which is no plainer.)
pub fn minute_at(minutes: &[u32], i: usize) -> u32
    ensures { result ≡ get_or minutes.now i 0 }
{
    minutes.get(i).copied().unwrap_or(0)
}

// The height at a place of a row; 0 past its end.
pub fn height_at(heights: &[i64], i: usize) -> i64
    ensures { result ≡ get_or heights.now i (pos 0) }
{
    heights.get(i).copied().unwrap_or(0)
}
