// The day at the berth: the height at a minute, the next high and low water, and the day's curve, drawn in characters.
ghost use Rattle.std.specs.Prelude.{◌≤◌, length, IfOk};

use digits::dates;
use output::pages::Page;
use page::face::Face;
use page::shown::{Date, Waters};
use page::{face, figures};
use std::io;

// The next high or low water: whether it lies in the month after, its minute and its height.
#[derive(Clone, Copy)]
pub struct Next {
    pub later: bool,
    pub minute: u32,
    pub height: i64,
}

// What is to be known at a minute of the month: the height, and the next high and low water, where there is one.
#[derive(Clone, Copy)]
pub struct Water {
    pub minute: u32,
    pub height: i64,
    pub high: Option<Next>,
    pub low: Option<Next>,
}

// The lowest and the highest of some heights.
#[derive(Clone, Copy)]
struct Range {
    low: i64,
    high: i64,
}

// A day of the month: its first minute, its turns from one to before another, and from its lowest to its highest water.
#[derive(Clone, Copy)]
struct Day {
    start: u32,
    from: usize,
    to: usize,
    range: Range,
}

// A row of the curve: a minute of the month, the height, and the mark that stands for it.
#[derive(Clone, Copy)]
struct Row {
    minute: u32,
    height: i64,
    mark: u8,
}

impl Range {
    // The range with one more height in it.
    fn with(self, height: i64) -> Range {
        Range {
            low: self.low.min(height),
            high: self.high.max(height),
        }
    }

    // The column of a height between the lowest and the highest, of 0 to 48, rounded.
    fn column_of(self, height: i64) -> u64 {
        let range = swings::apart(self.high, self.low);
        if range == 0 {
            return 24;
        }
        (96 * swings::apart(height, self.low) + range) / (2 * range)
    }
}

// Puts the curve's edge and blanks behind it, at most 48.
fn put_gap(rt: &impl Print, page: &mut Page, gap: u64) -> io::Result<()> {
    page.put_bytes(rt, b"  |")?;
    figures::put_blanks(rt, page, gap.min(48) as usize)
}

// Puts a row of a day's curve: the time, the height, and the mark in the height's column.
fn put_row(rt: &impl Print, page: &mut Page, day: Day, row: Row) -> io::Result<()> {
    figures::put_time(rt, page, digits::day_of(day.start), row.minute)?;
    figures::put_height(rt, page, row.height, 3)?;
    put_gap(rt, page, day.range.column_of(row.height))?;
    page.put_bytes(rt, &[row.mark, b'\n'])
}

// Puts a row for each turn from one to before another.
fn put_turns(
    rt: &impl Print,
    page: &mut Page,
    day: Day,
    from: usize,
    to: usize,
    waters: Waters,
) -> io::Result<()> {
    for i in from..to {
        let turn = waters.turn(i);
        let row = Row {
            minute: turn.minute,
            height: turn.height,
            mark: if turn.high { b'H' } else { b'L' },
        };
        put_row(rt, page, day, row)?;
    }
    Ok(())
}

// The minute at an hour of the day that begins at a minute.
fn hour_minute(start: u32, hour: u32) -> u32 {
    start.wrapping_add(hour % 25 * 60)
}

// Puts a row for each of the day's hours, and its turns between them.
fn put_curve(
    rt: &impl Print,
    page: &mut Page,
    day: Day,
    hourly: &[i64],
    waters: Waters,
) -> io::Result<()> {
    let mut turn = day.from;
    for hour in 0..25 {
        let minute = hour_minute(day.start, hour);
        let end = swings::turn_from(waters.minutes, turn, day.to, minute as u64);
        put_turns(rt, page, day, turn, end, waters)?;
        turn = end;
        let row = Row {
            minute,
            height: digits::height_at(hourly, hour as usize),
            mark: b'*',
        };
        put_row(rt, page, day, row)?;
    }
    Ok(())
}

// From the lowest to the highest of a day's heights at the hours and of its turns from one to before another.
fn range_of(hourly: &[i64], waters: Waters, from: usize, to: usize) -> Range {
    let water = digits::height_at(hourly, 0);
    let mut range = Range {
        low: water,
        high: water,
    };
    for hour in 1..25 {
        range = range.with(digits::height_at(hourly, hour));
    }
    for i in from..to {
        range = range.with(digits::height_at(waters.heights, i));
    }
    range
}

// The day that begins at a minute, of its heights at the hours and the month's turns.
fn day_of(start: u32, hourly: &[i64], waters: Waters) -> Day {
    let from = swings::turn_from(waters.minutes, 0, waters.count, start as u64);
    let end = hour_minute(start, 24) as u64;
    let to = swings::turn_from(waters.minutes, from, waters.count, end);
    Day {
        start,
        from,
        to,
        range: range_of(hourly, waters, from, to),
    }
}

// Puts a day and its month, as 1 July 1976.
fn put_day(rt: &impl Print, page: &mut Page, date: Date) -> io::Result<()> {
    page.put_number(rt, date.day as u64)?;
    page.put(rt, b' ')?;
    face::put_month(rt, page, date)
}

// The date of a turn in the month of a date, or in the month behind it.
fn date_of(date: Date, turn: Next) -> Date {
    let day = digits::day_of(turn.minute);
    if turn.later {
        return Date {
            year: dates::year_behind(date.year, date.month),
            month: dates::month_behind(date.month),
            day,
        };
    }
    Date {
        year: date.year,
        month: date.month,
        day,
    }
}

// Puts a height, and its time.
fn put_height_at(rt: &impl Print, page: &mut Page, height: i64, minute: u32) -> io::Result<()> {
    figures::put_height(rt, page, height, 3)?;
    page.put_bytes(rt, b"  at ")?;
    figures::put_clock(rt, page, minute)
}

// Puts the line of the next high or low water.
fn put_next(
    rt: &impl Print,
    page: &mut Page,
    label: &[u8],
    date: Date,
    next: Option<Next>,
) -> io::Result<()> {
    page.put_bytes(rt, label)?;
    match next {
        None => page.put_bytes(rt, b"  none\n"),
        Some(turn) => {
            put_height_at(rt, page, turn.height, turn.minute)?;
            page.put_bytes(rt, b" on ")?;
            put_day(rt, page, date_of(date, turn))?;
            page.put(rt, b'\n')
        }
    }
}

// Puts the sheet's head: the station and the day, the scales, what it stands on.
fn put_head(rt: &impl Print, page: &mut Page, face: Face, date: Date) -> io::Result<()> {
    face::put_name(rt, page, face)?;
    put_day(rt, page, date)?;
    page.put(rt, b'\n')?;
    face::put_stand(rt, page, face)?;
    page.put_bytes(rt, b"\n\n")
}

// Puts what is to be known at a minute: the height, and the next high and low water.
fn put_water(rt: &impl Print, page: &mut Page, date: Date, water: Water) -> io::Result<()> {
    page.put_bytes(rt, b"water           ")?;
    put_height_at(rt, page, water.height, water.minute)?;
    page.put(rt, b'\n')?;
    put_next(rt, page, b"next high water ", date, water.high)?;
    put_next(rt, page, b"next low water  ", date, water.low)?;
    page.put(rt, b'\n')
}

// Puts a day's sheet on a page.
fn put_on(
    rt: &impl Print,
    page: &mut Page,
    face: Face,
    date: Date,
    water: Water,
    hourly: &[i64],
    waters: Waters,
) -> io::Result<()> {
    put_head(rt, page, face, date)?;
    put_water(rt, page, date, water)?;
    let start = water.minute / 1_440 * 1_440;
    put_curve(rt, page, day_of(start, hourly, waters), hourly, waters)
}

// Puts a day's sheet for a minute of it behind what stands on a lent page: of the heights at the day's hours and of the month's turns. Gives the
// place behind it. (What stands on the lent page before the place is written out first, then the sheet, so that its first byte is free again. On an
// empty one nothing is written, the sheet neither. A caller with a Page of its own flushes that and lends `&[0]` at place 0.)
pub fn put_sheet(
    rt: &impl Print,
    lent: &[u8],
    at: usize,
    face: Face,
    date: Date,
    water: Water,
    hourly: &[i64],
    waters: Waters,
) -> io::Result<usize>
    ensures { IfOk result (λ next. next ≤ length lent.now) }
{
    if lent.is_empty() {
        return Ok(0);
    }
    output::flush(rt, lent, output::on_page(lent.len(), at))?;
    let mut page = Page::new();
    put_on(rt, &mut page, face, date, water, hourly, waters)?;
    page.flush(rt)?;
    Ok(0)
}
