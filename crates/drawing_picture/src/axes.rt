// A plot of a drawing: its frame, and its hours or days.
//
// Above and below the plot there is room within its frame for two lanes of labels.
ghost use Rattle.std.specs.Prelude.{◌<◌};

use drawing_plots::scale::Plot;
use drawing_plots::sizes::frame_foot;
use drawing_plots::{scale, sizes};
use drawing_svg::svg;
use output::pages::Page;
use std::io;

// Minutes of a plot, from one on, so many apart.
#[derive(Clone, Copy)]
pub struct Minutes {
    pub first: u16,
    pub apart: u16,
    ghost some: { 0 < apart },
}

// Where an upright line goes, from one place down to another.
#[derive(Clone, Copy)]
pub struct Upright {
    pub from: u32,
    pub to: u32,
}

// Puts the frame.
pub fn put_frame(rt: &impl Print, page: &mut Page, plot: Plot) -> io::Result<()> {
    let frame = sizes::frame_of(plot);
    svg::put_form(
        rt,
        page,
        b"<rect x=\"@\" y=\"$\" width=\"~\" height=\"^\" fill=\"none\" stroke=\"#888\" stroke-width=\"8\"/>\n",
        &[frame.left, frame.top, frame.width, frame.depth],
    )
}

// The upright lines of a plot's own depth.
pub fn plot_depth(plot: Plot) -> Upright {
    Upright {
        from: plot.top as u32,
        to: sizes::foot(plot),
    }
}

// Puts an upright line at a minute.
pub fn put_column(
    rt: &impl Print,
    page: &mut Page,
    plot: Plot,
    minute: u32,
    line: Upright,
) -> io::Result<()> {
    let x = scale::across(plot, minute) as u64;
    svg::put_form(rt, page, b"M@ $V~", &[x, line.from as u64, line.to as u64])
}

// Puts upright lines at minutes of a plot.
fn put_columns(
    rt: &impl Print,
    page: &mut Page,
    plot: Plot,
    minutes: Minutes,
    line: Upright,
) -> io::Result<()> {
    let end = plot.minutes as u32 + 1;
    for minute in (minutes.first as u32..end).step_by(minutes.apart as usize) {
        put_column(rt, page, plot, minute, line)?;
    }
    page.put_bytes(rt, b"\"/>\n")
}

// Puts upright lines through a plot.
pub fn put_grid(rt: &impl Print, page: &mut Page, plot: Plot, minutes: Minutes) -> io::Result<()> {
    page.put_bytes(rt, b"<path stroke=\"#ccc\" stroke-width=\"6\" d=\"")?;
    put_columns(rt, page, plot, minutes, plot_depth(plot))
}

// Puts ticks of a size under the frame.
pub fn put_ticks(
    rt: &impl Print,
    page: &mut Page,
    plot: Plot,
    minutes: Minutes,
    size: u16,
) -> io::Result<()> {
    let from = frame_foot(plot);
    let tick = Upright {
        from,
        to: from + size as u32,
    };
    page.put_bytes(rt, b"<path stroke=\"#888\" stroke-width=\"8\" d=\"")?;
    put_columns(rt, page, plot, minutes, tick)
}

// Begins a text under the frame, in the middle of a minute's place.
pub fn put_under(rt: &impl Print, page: &mut Page, plot: Plot, minute: u32) -> io::Result<()> {
    let x = scale::across(plot, minute) as u64;
    let y = frame_foot(plot) as u64 + 190;
    svg::put_form(rt, page, b"<text x=\"@\" y=\"$\">", &[x, y])
}

// The number at a minute of a plot: the hour of a day's, the day of the month of a week's.
fn number_at(plot: Plot, minute: u32, apart: u16) -> u32 {
    if apart < 1_440 {
        return minute / 60;
    }
    plot.first / 1_440 + minute / 1_440 + 1
}

// Puts numbers under the frame at minutes of a plot.
fn put_numbers(rt: &impl Print, page: &mut Page, plot: Plot, minutes: Minutes) -> io::Result<()> {
    svg::put_group(rt, page, 120)?;
    let end = plot.minutes as u32 + 1;
    for minute in (minutes.first as u32..end).step_by(minutes.apart as usize) {
        put_under(rt, page, plot, minute)?;
        page.put_number(rt, number_at(plot, minute, minutes.apart) as u64)?;
        page.put_bytes(rt, b"</text>\n")?;
    }
    svg::end_group(rt, page)
}

// Puts the hours of a day under its frame, every second one.
// (It and `put_days` are one call of `put_numbers` each, which is the function for both: they name its minutes.)
pub fn put_hours(rt: &impl Print, page: &mut Page, plot: Plot) -> io::Result<()> {
    let hours = Minutes {
        first: 0,
        apart: 120,
    };
    put_numbers(rt, page, plot, hours)
}

// Puts the days of a week under its frame, each at its noon.
pub fn put_days(rt: &impl Print, page: &mut Page, plot: Plot) -> io::Result<()> {
    let noons = Minutes {
        first: 720,
        apart: 1_440,
    };
    put_numbers(rt, page, plot, noons)
}
