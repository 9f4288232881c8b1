// The height axis of a plot: a line for each round height, with its figure.

use drawing_plots::scale::Plot;
use drawing_plots::spots::Level;
use drawing_plots::{scale, spots};
use drawing_svg::svg;
use output::pages::Page;
use std::io;

// Puts the decimals that the multiples of a step have, of a number of hundredths: none, one or two.
fn put_decimals(rt: &impl Print, page: &mut Page, hundredths: u64, step: u32) -> io::Result<()> {
    if step % 10_000 == 0 {
        return Ok(());
    }
    svg::put_form(rt, page, b".@", &[hundredths / 10])?;
    if step % 1_000 == 0 {
        return Ok(());
    }
    page.put_number(rt, hundredths % 10)
}

// Puts the height of a line, which is a raised height, in metres.
fn put_height(rt: &impl Print, page: &mut Page, line: u32, step: u32) -> io::Result<()> {
    let size = line.abs_diff(scale::ZERO) as u64;
    page.put_size(rt, line < scale::ZERO, size / 10_000)?;
    put_decimals(rt, page, size / 100 % 100, step)
}

// Puts the line of a height across a plot, darker at zero.
fn put_line(rt: &impl Print, page: &mut Page, level: Level, zero: bool) -> io::Result<()> {
    let ends = [level.left, level.down, level.right];
    if zero {
        return svg::put_form(
            rt,
            page,
            b"<path d=\"M@ $H~\" stroke=\"#777\" stroke-width=\"8\"/>\n",
            &ends,
        );
    }
    svg::put_form(
        rt,
        page,
        b"<path d=\"M@ $H~\" stroke=\"#ccc\" stroke-width=\"6\"/>\n",
        &ends,
    )
}

// Puts a line of a scale, and its height at the left of it.
fn put_level(rt: &impl Print, page: &mut Page, plot: Plot, line: u32) -> io::Result<()> {
    let level = spots::level_of(plot, line);
    put_line(rt, page, level, line == scale::ZERO)?;
    svg::put_form(
        rt,
        page,
        b"<text x=\"@\" y=\"$\">",
        &[level.end, level.base],
    )?;
    put_height(rt, page, line, plot.step)?;
    page.put_bytes(rt, b"</text>\n")
}

// The highest line, so that a step above it fits as well.
const HIGHEST: u64 = 4_000_000_000;

// Puts the lines of a plot. It has fewer than 32.
pub fn put_scale(rt: &impl Print, page: &mut Page, plot: Plot) -> io::Result<()> {
    svg::put_form(
        rt,
        page,
        b"<g text-anchor=\"end\" font-size=\"@\">\n",
        &[plot.text as u64],
    )?;
    let mut line = plot.low;
    for _ in 0..32 {
        if plot.span < line.saturating_sub(plot.low) {
            break;
        }
        put_level(rt, page, plot, line.min(HIGHEST) as u32)?;
        if line < HIGHEST {
            line += plot.step as u64;
        }
    }
    svg::end_group(rt, page)
}
