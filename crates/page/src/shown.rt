// What a sheet or a drawing shows: a date, heights in a row, and high and low waters, a month's own or lent in two rows.
ghost use Rattle.std.specs.Prelude.{◌≡◌, length, pos, get_or};
ghost use Rattle.calendar.specs.Calendar.{month_minutes};
ghost use Rattle.swings.specs.Swings.{is_high};

// How many turns a month has room for, and how many a year: 16 a day and some more, for a tide that rises and falls four times in twelve hours.
pub const TURNS: usize = 512;

pub const YEAR_TURNS: usize = 6_144;

// A day of a month, or day 0 for the whole month; month 0 for the whole year. (Not Options: a month's and a day's views need the plain numbers, as
// `calendar::month_days(date.year, date.month)`, and would have to take apart what they were asked for.)
#[derive(Clone, Copy)]
pub struct Date {
    pub year: u32,
    pub month: u32,
    pub day: u32,
}

// Heights of a month, from a minute of it on, a step of minutes apart.
#[derive(Clone, Copy)]
pub struct Series<'a> {
    pub start: u32,
    pub step: u32,
    pub heights: &'a [i64],
}

// A high or a low water: its minute and its height.
#[derive(Clone, Copy)]
pub struct Turn {
    pub minute: u32,
    pub height: i64,
    pub high: bool,
}

// A month's turns: how many there are, whether the first is high, and in order their minutes and their heights. (Rows with a count: fixed memory, no heap.)
#[derive(Clone, Copy)]
pub struct Turns {
    pub count: usize,
    pub first: bool,
    pub minutes: [u32; TURNS],
    pub heights: [i64; TURNS],
}

// Turns in two lent rows: how many there are, whether the first is high, and in order their minutes and their heights.
#[derive(Clone, Copy)]
pub struct Waters<'a> {
    pub count: usize,
    pub first: bool,
    pub minutes: &'a [u32],
    pub heights: &'a [i64],
}

impl Turns {
    // These turns, lent.
    pub fn lent(&self) -> Waters<'_>
        ensures count { result.count ≡ self.now.count }
        ensures first { result.first ≡ self.now.first }
        ensures minutes { result.minutes.now ≡ self.now.minutes }
        ensures heights { result.heights.now ≡ self.now.heights }
    {
        Waters {
            count: self.count,
            first: self.first,
            minutes: &self.minutes,
            heights: &self.heights,
        }
    }
}

impl Waters<'_> {
    // The turn at a place; past a row's end it has a 0 there.
    pub fn turn(self, i: usize) -> Turn
        ensures minute { result.minute ≡ get_or self.entry.minutes.now i 0 }
        ensures height { result.height ≡ get_or self.entry.heights.now i (pos 0) }
        ensures high { result.high ≡ is_high self.entry.first i }
    {
        Turn {
            minute: digits::minute_at(self.minutes, i),
            height: digits::height_at(self.heights, i),
            high: swings::is_high(self.first, i),
        }
    }
}

// Room for the minutes of a year's turns. (Each a function's result, so that its length is known as a fact.)
// (Two, for one of any type would take its zero as a parameter, and a zero says less of what the places are for than these names.)
pub fn minute_places() -> [u32; YEAR_TURNS]
    ensures { 6_144 ≡ length result }
{
    [0; YEAR_TURNS]
}

// Room for their heights.
pub fn height_places() -> [i64; YEAR_TURNS]
    ensures { 6_144 ≡ length result }
{
    [0; YEAR_TURNS]
}

// The last minute of the month of a date.
pub fn last_minute(date: Date) -> u32
    ensures { result ≡ month_minutes date.year date.month }
{
    calendar::month_minutes(date.year, date.month)
}
