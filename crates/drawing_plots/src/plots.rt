// Where the plots of a drawing stand, and which minutes of the month are theirs: a day has one plot, a month one for each week, a year one of its hours.
//
// Ten units of a drawing make a pixel.
ghost use Rattle.std.specs.Prelude.{◌≡◌, ◌-◌, ◌<◌, ◌≤◌, min};
ghost use Rattle.limits.specs.Limits.{most_minutes};
ghost use Rattle.drawing_plots.specs.Plots.{after_days, day_first, day_last, month_count, day_plot, week_days, week_last, week_plot, month_foot, year_plot};

use crate::scale::{Plot, Scale};

// Where all plots begin.
const LEFT: u16 = 700;

// The days of a month, which are at most 31.
pub fn few(days: u32) -> u16
    ensures is { result ≡ min days 31 }
    ensures small { result ≤ 31 }
{
    days.min(31) as u16
}

// The minute of the month after so many days, of 31 at most.
fn after_days(days: u32) -> u32
    ensures is { result ≡ after_days days }
    ensures small { result ≤ most_minutes }
{
    few(days) as u32 * 1_440
}

// The first minute of a day of the month.
pub fn day_first(day: u32) -> u32
    ensures { result ≡ day_first day }
{
    after_days(day).saturating_sub(1_440)
}

// The day's last minute, where the month has so many days: the one before midnight, or the month's last.
fn day_last(day: u32, days: u32) -> u32
    ensures { result ≡ day_last day days }
{
    let end = after_days(day);
    if days <= day {
        return end;
    }
    end.saturating_sub(1)
}

// How many heights a month of some days has, 20 minutes apart, with both ends.
pub fn month_count(days: u32) -> usize
    ensures is { result ≡ month_count days }
    ensures small { result ≤ 2_233 }
{
    few(days) as usize * 72 + 1
}

// From the lowest line of a scale to the highest.
fn span(lines: Scale) -> u64
    ensures { result ≡ lines.high - lines.low }
{
    lines.high.saturating_sub(lines.low)
}

// The plot of a day, where the month has so many days.
pub fn day_plot(lines: Scale, day: u32, days: u32) -> Plot
    ensures { result ≡ day_plot lines day days }
{
    Plot {
        left: LEFT,
        width: 8_640,
        top: 1_720,
        depth: 2_600,
        minutes: 1_440,
        low: lines.low,
        span: span(lines),
        step: lines.step,
        text: 125,
        first: day_first(day),
        last: day_last(day, days),
    }
}

// The days of a month's week, of the weeks from 0 on; 0 where the month has no such week.
pub fn week_days(days: u16, week: u8) -> u16
    ensures is { result ≡ week_days days week }
    ensures small { result ≤ 7 }
{
    days.saturating_sub(week as u16 * 7).min(7)
}

// The last minute of a week: the one before the next week's first, or the month's last.
fn week_last(days: u16, week: u8) -> u32
    requires { week < 5 }
    ensures { result ≡ week_last days week }
{
    let end = week as u32 * 10_080 + week_days(days, week) as u32 * 1_440;
    if week_days(days, week + 1) < 1 {
        return end;
    }
    end - 1
}

// The plot of a week of a month.
pub fn week_plot(lines: Scale, days: u16, week: u8) -> Plot
    requires { week < 5 }
    ensures { result ≡ week_plot lines days week }
{
    let shown = week_days(days, week);
    Plot {
        left: LEFT,
        width: shown * 1_234,
        top: 1_480 + week as u16 * 2_270,
        depth: 1_050,
        minutes: shown * 1_440,
        low: lines.low,
        span: span(lines),
        step: lines.step,
        text: 88,
        first: week as u32 * 10_080,
        last: week_last(days, week),
    }
}

// Where the foot of a month's drawing stands: under its weeks.
pub fn month_foot(days: u16) -> u32
    ensures is { result ≡ month_foot days }
    ensures small { result < 20_000 }
{
    if 28 < days { 12_570 } else { 10_300 }
}

// The plot of a year of so many days, whose hours are counted across it in place of minutes.
pub fn year_plot(lines: Scale, days: u16) -> Plot
    requires { days ≤ 372 }
    ensures { result ≡ year_plot lines days }
{
    let hours = days * 24;
    Plot {
        left: LEFT,
        width: hours,
        top: 1_480,
        depth: 2_600,
        minutes: hours,
        low: lines.low,
        span: span(lines),
        step: lines.step,
        text: 88,
        first: 0,
        last: hours as u32,
    }
}
