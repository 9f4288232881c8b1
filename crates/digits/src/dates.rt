// Dates on a sheet: the month after a month, a date in digits, and the months' names.
ghost use Rattle.std.specs.Prelude.{◌≡◌, ◌<◌};
ghost use Rattle.digits.specs.Dates.{month_behind, year_behind, iso_date, iso_day, minute_of_month, month_name, place_of};

// The names of the months in nine columns each, behind a blank one.
const NAMES: [[u8; 9]; 13] = [
    *b"         ",
    *b"January  ",
    *b"February ",
    *b"March    ",
    *b"April    ",
    *b"May      ",
    *b"June     ",
    *b"July     ",
    *b"August   ",
    *b"September",
    *b"October  ",
    *b"November ",
    *b"December ",
];

// The month after a month, and its year; no date past the year 9999.
pub fn month_behind(month: u32) -> u32
    ensures { result ≡ month_behind month }
{
    if month < 12 { month + 1 } else { 1 }
}

pub fn year_behind(year: u32, month: u32) -> u32
    ensures { result ≡ year_behind year month }
{
    if month < 12 {
        return year;
    }
    if year < 9_999 { year + 1 } else { 9_999 }
}

// A date as YYYY-MM-DDT.
fn iso_date(year: u32, month: u32, day: u32) -> [u8; 11]
    ensures { result ≡ iso_date year month day }
{
    let y = u64::from(year);
    let m = u64::from(month);
    let d = u64::from(day);
    [
        crate::last_digit(y / 100 / 10),
        crate::last_digit(y / 100),
        crate::last_digit(y / 10),
        crate::last_digit(y),
        b'-',
        crate::last_digit(m / 10),
        crate::last_digit(m),
        b'-',
        crate::last_digit(d / 10),
        crate::last_digit(d),
        b'T',
    ]
}

// The date of a minute of a month, as YYYY-MM-DDT. The month's last minute lies on the first day of the next.
pub fn iso_day(year: u32, month: u32, minute: u32) -> [u8; 11]
    ensures { result ≡ iso_day year month minute }
{
    let day = crate::day_of(minute);
    if day <= calendar::month_days(year, month) {
        return iso_date(year, month, day);
    }
    iso_date(year_behind(year, month), month_behind(month), 1)
}

// The minute of the month of a minute of one of its days; past every month where it is too large to say, or the day is 0. (A number and no Option: so says the
// definition `minute_of_month`, and the clock refuses it.)
pub fn minute_of_month(day: u32, minute: u32) -> u32
    ensures { result ≡ minute_of_month day minute }
{
    if 1_000_000 < day || 1_440 < minute || day < 1 {
        return u32::MAX;
    }
    (day - 1) * 1_440 + minute
}

// A month's place among the names: 0 where there is no such month.
fn place_of(month: u32) -> usize
    ensures { (result ≡ place_of month) × (result < 13) }
{
    if month < 13 { month as usize } else { 0 }
}

// A month's name in nine columns, January's being month 1; blanks where there is no such month.
pub fn month_name(month: u32) -> [u8; 9]
    ensures { result ≡ month_name month }
{
    NAMES[place_of(month)]
}
