// The year for the wall: its months, each with its highest and its lowest water, and for each day the high and low waters. Minutes are counted from 1 January.

use crate::daylines;
use crate::daylines::{Days, Measured};
use output::pages::Page;
use page::face::Face;
use page::shown::{Date, Turn, Waters};
use page::{face, figures};
use std::io;
use swings::months;
use swings::months::Month;

// Puts a turn of a month behind a label: its height, its day, and its time.
fn put_water(
    rt: &impl Print,
    page: &mut Page,
    label: &[u8],
    month: Month,
    turn: Turn,
) -> io::Result<()> {
    page.put_bytes(rt, label)?;
    figures::put_height(rt, page, turn.height, 0)?;
    page.put_bytes(rt, b" on ")?;
    let day = months::day_in(month, turn.minute);
    page.put_number(rt, day as u64)?;
    page.put_bytes(rt, b" at ")?;
    figures::put_time(rt, page, day, months::minute_in(month, turn.minute))
}

// Puts the highest and the lowest water of a month, or that it has none.
fn put_extremes(rt: &impl Print, page: &mut Page, month: Month, waters: Waters) -> io::Result<()> {
    if month.to <= month.from {
        return page.put_bytes(rt, b": no high or low water\n");
    }
    put_water(rt, page, b": highest ", month, waters.turn(month.highest))?;
    put_water(rt, page, b", lowest ", month, waters.turn(month.lowest))?;
    page.put(rt, b'\n')
}

// Puts a month: its heading, and a line for each of its days.
fn put_month(rt: &impl Print, page: &mut Page, date: Date, measured: Measured) -> io::Result<()> {
    let waters = measured.waters;
    let month = months::month_of(
        date.year,
        date.month,
        waters.count,
        waters.minutes,
        waters.heights,
    );
    page.put(rt, b'\n')?;
    face::put_month(rt, page, date)?;
    put_extremes(rt, page, month, waters)?;
    let days = Days {
        before: month.before,
        days: month.days,
        all: months::days_before(date.year, 13),
        from: month.from,
    };
    daylines::put_days(rt, page, days, measured)
}

// Puts a year's sheet: its head, and its months.
pub fn put_year(
    rt: &impl Print,
    page: &mut Page,
    face: Face,
    date: Date,
    waters: Waters,
) -> io::Result<()> {
    face::put_title(rt, page, face, date)?;
    face::put_stand(rt, page, face)?;
    daylines::put_names(rt, page)?;
    let measured = daylines::measure(waters);
    for month in 1..13 {
        let shown = Date {
            year: date.year,
            month,
            day: 0,
        };
        put_month(rt, page, shown, measured)?;
    }
    Ok(())
}
