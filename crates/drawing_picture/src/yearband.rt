// A year as one band, each day from its lowest to its highest water, so that springs and neaps show at a glance; each month's highest and lowest water are
// marked, and its name stands below.
//
// The heights are hourly, from the year's first minute on.

use crate::labels::When;
use crate::{axes, labels, levels};
use drawing_plots::scale::{Extent, Plot, Scale};
use drawing_plots::{bands, plots, scale};
use drawing_svg::svg;
use output::pages::Page;
use page::face;
use page::shown::{Turn, Waters};
use std::io;
use swings::months;
use swings::months::Month;

// What is drawn of a year: its number, its plot, and its turns.
#[derive(Clone, Copy)]
struct Year<'a> {
    number: u32,
    plot: Plot,
    waters: Waters<'a>,
}

// The heights of all turns.
fn all_heights<'a>(waters: Waters<'a>) -> &'a [i64] {
    bands::part(waters.heights, 0, waters.count)
}

// The lines of a year, which hold its heights and its turns.
fn year_lines(hourly: &[i64], waters: Waters) -> Scale {
    let curve = scale::extended(scale::no_heights(), hourly);
    scale::scale_of(scale::extended(curve, all_heights(waters)), 9)
}

// Puts a day of the band, from its highest water down to its lowest; one of still water is seen too.
fn put_day(
    rt: &impl Print,
    page: &mut Page,
    plot: Plot,
    day: u16,
    extent: Extent,
) -> io::Result<()> {
    let x = scale::across(plot, day as u32 * 24 + 12) as u64;
    let high = scale::down(plot, extent.high) as u64;
    let low = scale::down(plot, extent.low) as u64;
    svg::put_form(rt, page, b"M@ $V~", &[x, high, low + 8])
}

// Puts the band of the year's days.
fn put_band(
    rt: &impl Print,
    page: &mut Page,
    year: Year,
    days: u16,
    hourly: &[i64],
) -> io::Result<()> {
    page.put_bytes(
        rt,
        b"<path fill=\"none\" stroke=\"#0b4f8a\" stroke-width=\"25\" d=\"",
    )?;
    let waters = year.waters;
    let mut from: usize = 0;
    for day in 0..days {
        let to = swings::day_end(
            waters.minutes,
            from,
            waters.count,
            day as u32 + 1,
            days as u32,
        );
        let extent = bands::day_extent(day, hourly, all_heights(waters), from, to);
        put_day(rt, page, year.plot, day, extent)?;
        from = to;
    }
    page.put_bytes(rt, b"\"/>\n")
}

// Puts an upright line through the plot where each month begins, and one at the year's end.
fn put_lines(rt: &impl Print, page: &mut Page, year: Year) -> io::Result<()> {
    page.put_bytes(rt, b"<path stroke=\"#ccc\" stroke-width=\"6\" d=\"")?;
    let line = axes::plot_depth(year.plot);
    for month in 1..14 {
        let start = months::days_before(year.number, month) * 24;
        axes::put_column(rt, page, year.plot, start, line)?;
    }
    page.put_bytes(rt, b"\"/>\n")
}

// Puts the months' names under the frame, each in the middle of its days.
fn put_names(rt: &impl Print, page: &mut Page, year: Year) -> io::Result<()> {
    svg::put_group(rt, page, 120)?;
    for month in 1..13 {
        let start = months::days_before(year.number, month);
        let end = months::days_before(year.number, month + 1);
        axes::put_under(rt, page, year.plot, (start + end) * 12)?;
        face::put_month_name(rt, page, month)?;
        page.put_bytes(rt, b"</text>\n")?;
    }
    svg::end_group(rt, page)
}

// The highest or the lowest turn of a month.
fn extreme(month: Month, high: bool) -> usize {
    if high { month.highest } else { month.lowest }
}

// Puts the marks of the months' highest waters, or of their lowest, of the months that have one; a year's plot counts hours in place of minutes.
fn put_kind(rt: &impl Print, page: &mut Page, year: Year, high: bool) -> io::Result<()> {
    let waters = year.waters;
    let mut lanes = scale::free_lanes();
    for number in 1..13 {
        let month = months::month_of(
            year.number,
            number,
            waters.count,
            waters.minutes,
            waters.heights,
        );
        if month.from < month.to {
            let turn = waters.turn(extreme(month, high));
            let day = months::day_in(month, turn.minute);
            let shown = Turn {
                minute: turn.minute / 60,
                height: turn.height,
                high,
            };
            lanes = labels::put_mark(rt, page, year.plot, lanes, When::Day(day), shown)?;
        }
    }
    Ok(())
}

// Puts the marks of the months' highest and lowest waters.
fn put_marks(rt: &impl Print, page: &mut Page, year: Year) -> io::Result<()> {
    svg::put_group(rt, page, year.plot.text as u64)?;
    put_kind(rt, page, year, true)?;
    put_kind(rt, page, year, false)?;
    svg::end_group(rt, page)
}

// Puts the plot of a year.
pub fn put_year(
    rt: &impl Print,
    page: &mut Page,
    number: u32,
    hourly: &[i64],
    waters: Waters,
) -> io::Result<()> {
    let days = months::days_before(number, 13) as u16;
    let plot = plots::year_plot(year_lines(hourly, waters), days);
    let year = Year {
        number,
        plot,
        waters,
    };
    levels::put_scale(rt, page, plot)?;
    put_lines(rt, page, year)?;
    put_band(rt, page, year, days, hourly)?;
    axes::put_frame(rt, page, plot)?;
    put_names(rt, page, year)?;
    put_marks(rt, page, year)
}
