// The figures on a sheet, put on a page right in their columns.

pub use digits::{height_at, minute_at};
use output::pages::Page;
use std::io;

// Puts so many blanks.
pub fn put_blanks(rt: &impl Print, page: &mut Page, blanks: usize) -> io::Result<()> {
    for _ in 0..blanks {
        page.put(rt, b' ')?;
    }
    Ok(())
}

// How many digits a number has.
fn digit_count(number: u64) -> usize {
    let mut text = itoa::Buffer::new();
    text.format(number).len()
}

// Puts a number right in a column of a width.
pub fn put_right(rt: &impl Print, page: &mut Page, number: u64, width: usize) -> io::Result<()> {
    put_blanks(rt, page, width.saturating_sub(digit_count(number)))?;
    page.put_number(rt, number)
}

// The blanks before a height, so that its units stand in one column: as many as the width has room for.
fn indent(negative: bool, whole: u64, width: usize) -> usize {
    let sign = if negative { 1 } else { 0 };
    width
        .saturating_sub(digit_count(whole))
        .saturating_sub(sign)
}

// Puts a height, given in tenths of thousandths of the unit, with three decimals, a half rounded away from zero. Its whole part stands
// right in a column of a width.
pub fn put_height(rt: &impl Print, page: &mut Page, height: i64, width: usize) -> io::Result<()> {
    let rounded = digits::thousandths(angles::size(height));
    let whole = rounded / 1_000;
    put_blanks(rt, page, indent(height < 0, whole, width))?;
    page.put_size(rt, height < 0, whole)?;
    page.put_bytes(rt, &digits::three_decimals(rounded))
}

// Puts a height with its four decimals, as it is.
pub fn put_exact(rt: &impl Print, page: &mut Page, height: i64) -> io::Result<()> {
    let size = angles::size(height);
    page.put_size(rt, height < 0, size / 10_000)?;
    page.put_bytes(rt, &digits::four_decimals(size))
}

// Puts HH:MM of a minute of the month.
pub fn put_clock(rt: &impl Print, page: &mut Page, minute: u32) -> io::Result<()> {
    page.put_bytes(rt, &digits::time_of_day(minute))
}

// Puts a time on a day: the end of the day is its 24:00.
pub fn put_time(rt: &impl Print, page: &mut Page, day: u32, minute: u32) -> io::Result<()> {
    page.put_bytes(rt, &digits::time_on_day(day, minute))
}
