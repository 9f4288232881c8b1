// The month at the berth: for each day the high and low waters, and how far the water moves, so that spring and neap show at a glance.

use crate::daylines;
use crate::daylines::Days;
use output::pages::Page;
use page::face;
use page::face::Face;
use page::shown::{Date, Waters};
use std::io;

// Puts a month's sheet: its head, and a line for each day.
pub fn put_month(
    rt: &impl Print,
    page: &mut Page,
    face: Face,
    date: Date,
    waters: Waters,
) -> io::Result<()> {
    face::put_title(rt, page, face, date)?;
    face::put_stand(rt, page, face)?;
    daylines::put_names(rt, page)?;
    let days = calendar::month_days(date.year, date.month);
    let month = Days {
        before: 0,
        days,
        all: days,
        from: 0,
    };
    daylines::put_days(rt, page, month, daylines::measure(waters))
}
