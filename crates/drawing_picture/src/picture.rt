// Pictures of heights and turns as SVG: a day, and a month in rows of a week.

use crate::axes::Minutes;
use crate::{axes, curve, levels, marks};
use drawing_plots::scale::{Plot, Scale};
use drawing_plots::{bands, plots, scale};
use output::pages::Page;
use page::shown::{Date, Waters};
use std::io;

// What stands along a plot's minutes: upright lines, and ticks of a size.
#[derive(Clone, Copy)]
struct Axis {
    lines: Minutes,
    ticks: Minutes,
    size: u16,
}

// Puts the lines, the frame and the ticks of a plot.
fn put_axes(rt: &impl Print, page: &mut Page, plot: Plot, axis: Axis) -> io::Result<()> {
    axes::put_grid(rt, page, plot, axis.lines)?;
    levels::put_scale(rt, page, plot)?;
    axes::put_frame(rt, page, plot)?;
    axes::put_ticks(rt, page, plot, axis.ticks, axis.size)
}

// The plot of a day, whose height axis holds its heights, where its month has so many days.
fn day_plot(heights: &[i64], day: u32, days: u32) -> Plot {
    let lines = scale::scale_of(scale::extended(scale::no_heights(), heights), 9);
    plots::day_plot(lines, day, days)
}

// Puts the plot of a day: axes, the curve of its heights, five minutes apart, and its turns among the month's.
pub fn put_day(
    rt: &impl Print,
    page: &mut Page,
    date: Date,
    heights: &[i64],
    waters: Waters,
) -> io::Result<()> {
    let days = calendar::month_days(date.year, date.month);
    let plot = day_plot(heights, date.day, days);
    let hours = Minutes {
        first: 0,
        apart: 60,
    };
    let axis = Axis {
        lines: hours,
        ticks: hours,
        size: 50,
    };
    put_axes(rt, page, plot, axis)?;
    axes::put_hours(rt, page, plot)?;
    curve::put_curve(rt, page, plot, heights, 5)?;
    marks::put_marks(rt, page, plot, waters)
}

// Puts the plot of a week: axes, the curve of its heights among the month's, 20 minutes apart, and its turns among the month's.
fn put_week(
    rt: &impl Print,
    page: &mut Page,
    plot: Plot,
    heights: &[i64],
    waters: Waters,
) -> io::Result<()> {
    let axis = Axis {
        lines: Minutes {
            first: 0,
            apart: 1_440,
        },
        ticks: Minutes {
            first: 0,
            apart: 360,
        },
        size: 40,
    };
    put_axes(rt, page, plot, axis)?;
    axes::put_days(rt, page, plot)?;
    let shown = bands::part(heights, plot.first as usize / 20, heights.len());
    curve::put_curve(rt, page, plot, shown, 20)?;
    marks::put_marks(rt, page, plot, waters)
}

// The lines of a month, which hold its heights and its turns.
fn month_lines(heights: &[i64], waters: Waters) -> Scale {
    let curve = scale::extended(scale::no_heights(), heights);
    let all = scale::extended(curve, bands::part(waters.heights, 0, waters.count));
    scale::scale_of(all, 5)
}

// Puts the plots of a month's weeks, with one scale of heights.
pub fn put_month(
    rt: &impl Print,
    page: &mut Page,
    days: u16,
    heights: &[i64],
    waters: Waters,
) -> io::Result<()> {
    let lines = month_lines(heights, waters);
    for week in 0..5 {
        if plots::week_days(days, week) == 0 {
            break;
        }
        put_week(
            rt,
            page,
            plots::week_plot(lines, days, week),
            heights,
            waters,
        )?;
    }
    Ok(())
}
