// The months of a year, whose minutes are counted from 1 January: which of the year's turns stand in a month, and which of these are the highest and the lowest.
ghost use Rattle.std.specs.Prelude.{◌≡◌, ◌-◌, ◌*◌, ◌≤◌, min};
ghost use Rattle.calendar.specs.Calendar.{months_days};
ghost use Rattle.digits.specs.Digits.{day_of};
ghost use Rattle.swings.specs.Months.{raised_at, is_beyond, extreme_turn, month_of};

use crate::{day_end, turn_from};
use drawing_plots::scale;

// A month of a year: how many days of the year lie before it and how many it has, its turns from one to before another, and which of these are the highest
// and the lowest.
#[derive(Clone, Copy)]
pub struct Month {
    pub before: u32,
    pub days: u32,
    pub from: usize,
    pub to: usize,
    pub highest: usize,
    pub lowest: usize,
}

// The days of the year before a month; before month 13 lie all.
pub fn days_before(year: u32, month: u32) -> u32
    ensures is { result ≡ months_days year (month - 1) }
    ensures small { result ≤ 12 * 31 }
{
    calendar::days_before(year, month) as u32
}

// A turn's height, counted as a drawing counts it.
fn raised_at(heights: &[i64], i: usize) -> u32
    ensures { result ≡ raised_at heights.now i }
{
    scale::raised(digits::height_at(heights, i))
}

// Whether a height lies beyond another: above it where the highest is sought, below it where the lowest is.
fn is_beyond(high: bool, a: u32, b: u32) -> bool
    ensures { result ≡ is_beyond high a b }
{
    if high { b < a } else { a < b }
}

// The highest or the lowest of the turns from one to before another, the first of several; that one where there is none.
fn extreme_turn(high: bool, heights: &[i64], from: usize, to: usize) -> usize
    ensures { result ≡ extreme_turn high heights.now from (to - from) }
{
    let mut best = from;
    for i in from..to {
        if is_beyond(high, raised_at(heights, i), raised_at(heights, best)) {
            best = i;
        }
    }
    best
}

// A month of a year, of so many turns in two lent rows.
pub fn month_of(year: u32, month: u32, count: usize, minutes: &[u32], heights: &[i64]) -> Month
    ensures { result ≡ month_of year month count minutes.now heights.now }
{
    let before = days_before(year, month);
    let days = calendar::month_days(year, month);
    let from = turn_from(minutes, 0, count, before as u64 * 1_440);
    let to = day_end(minutes, from, count, before + days, days_before(year, 13));
    Month {
        before,
        days,
        from,
        to,
        highest: extreme_turn(true, heights, from, to),
        lowest: extreme_turn(false, heights, from, to),
    }
}

// The minute of a month at a minute of its year.
pub fn minute_in(month: Month, minute: u32) -> u32
    ensures { result ≡ minute - month.before * 1_440 }
{
    let first = month.before as u64 * 1_440;
    scale::beyond(minute as u64, first) as u32
}

// The day of a month on which a minute of its year stands: the month's end stands on its last day.
pub fn day_in(month: Month, minute: u32) -> u32
    ensures { result ≡ min (day_of (minute - month.before * 1_440)) month.days }
{
    digits::day_of(minute_in(month, minute)).min(month.days)
}
