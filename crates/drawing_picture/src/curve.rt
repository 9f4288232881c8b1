// The curve of a series of heights.

use drawing_plots::scale::Plot;
use drawing_plots::{scale, spots};
use drawing_svg::svg;
use output::pages::Page;
use std::io;

// Puts the curve of a plot through heights, the first at its first minute, and each a step of minutes after the one before.
pub fn put_curve(
    rt: &impl Print,
    page: &mut Page,
    plot: Plot,
    heights: &[i64],
    step: u16,
) -> io::Result<()> {
    svg::put_form(
        rt,
        page,
        b"<polyline fill=\"none\" stroke=\"#0b4f8a\" stroke-linejoin=\"round\" stroke-width=\"@\" points=\"",
        &[plot.text as u64 / 6],
    )?;
    let mut minute: u32 = 0;
    for height in heights {
        if minute > plot.minutes as u32 {
            break;
        }
        let x = scale::across(plot, minute) as u64;
        let y = spots::height_down(plot, *height) as u64;
        svg::put_form(rt, page, b"@,$ ", &[x, y])?;
        minute += step as u32;
    }
    page.put_bytes(rt, b"\"/>\n")
}
