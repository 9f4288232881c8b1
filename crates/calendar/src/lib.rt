// The calendar: months, minutes of a month, the day count from 1 January 1976, and the dates in range.
#![tactic(auto)]

ghost use Rattle.std.specs.Prelude.{◌≡◌, ◌&&◌, ◌+◌, ◌*◌, ◌/◌, ◌^◌, ◌≤◌, ◌<◌, ◌-◌, eqb};
ghost use Rattle.calendar.specs.Calendar.{between, day_count, in_range, is_fourth, month_days, month_minutes, months_days, year_in_range, year_minutes};

// The lengths of the months, January first.
const LENGTHS: [u32; 12] = [31, 28, 31, 30, 31, 30, 31, 31, 30, 31, 30, 31];

// Whether a number is from the first of two to the second.
// (`drawing_svg` has it for bytes: one for both would need a bound and a crate below both, for a single line, which is no plainer.)
fn between(low: u32, high: u32, number: u32) -> bool
    ensures { result ≡ between low high number }
{
    low <= number && number <= high
}

// Whether a year is 1950 to 2049.
pub fn year_in_range(year: u32) -> bool
    ensures { result ≡ year_in_range year }
{
    between(1950, 2049, year)
}

// Whether a date's year is 1950 to 2049 and its month 1 to 12; any other date is refused by 8.
pub fn in_range(year: u32, month: u32) -> bool
    ensures { result ≡ in_range year month }
{
    year_in_range(year) && between(1, 12, month)
}

// Whether a month is a February with a 29th.
fn is_long_february(year: u32, month: u32) -> bool
    ensures { result ≡ (eqb month 2 && is_fourth year) }
{
    month == 2 && year % 4 == 0
}

// The days of a month; 0 where the month is not 1 to 12.
pub fn month_days(year: u32, month: u32) -> u32
    ensures { result ≡ month_days year month }
{
    if is_long_february(year, month) {
        return 29;
    }
    if month < 1 {
        return 0;
    }
    if 12 < month {
        return 0;
    }
    LENGTHS[(month - 1) as usize]
}

// The last minute of a month, that is, days times 1,440.
pub fn month_minutes(year: u32, month: u32) -> u32
    ensures { result ≡ month_minutes year month }
{
    month_days(year, month) * 1440
}

// The days of the months before a month; before month 13 lie the year's.
pub fn days_before(year: u32, month: u32) -> u64
    ensures is { result ≡ months_days year (month - 1) }
    ensures small { result ≤ 12 * 31 }
{
    let mut days: u64 = 0;
    for passed in 0..12 {
        if month <= passed + 1 {
            return days;
        }
        days += month_days(year, passed + 1) as u64;
    }
    days
}

// The last minute of a year, counted from 1 January.
pub fn year_minutes(year: u32) -> u64
    ensures is { result ≡ year_minutes year }
    ensures small { result ≤ 12 * 31 * 1_440 }
{
    days_before(year, 13) * 1_440
}

// A date's number in days, counted from 1 January of a year 0.
fn day_number(year: u32, month: u32, day: u32) -> u64
    ensures is { result ≡ 365 * year + (year + 3) / 4 + months_days year (month - 1) + day }
    ensures small { result < 2 ^ 62 }
{
    let years = year as u64;
    365 * years + (years + 3) / 4 + days_before(year, month) + day as u64
}

// The day count of a date from 1 January 1976, negative before it.
pub fn day_count(year: u32, month: u32, day: u32) -> i64
    ensures { result ≡ day_count year month day }
{
    day_number(year, month, day) as i64 - day_number(1976, 1, 1) as i64
}
