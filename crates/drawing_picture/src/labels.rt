// A high or low water on a plot: the mark on the curve, and the label with time or day and height in a lane above or below.

use drawing_plots::scale::{Lanes, Plot};
use drawing_plots::spots::Spot;
use drawing_plots::{sizes, spots};
use drawing_svg::svg;
use output::pages::Page;
use page::figures;
use page::shown::Turn;
use std::io;

// What the first line of a label says: the time of day at a minute, or a day of the month.
#[derive(Clone, Copy)]
pub enum When {
    Time(u32),
    Day(u32),
}

// Puts a label: the time or the day, and the height under it, a line further down.
fn put_label(
    rt: &impl Print,
    page: &mut Page,
    plot: Plot,
    spot: Spot,
    when: When,
    height: i64,
) -> io::Result<()> {
    svg::put_form(
        rt,
        page,
        b"<text x=\"@\" y=\"$\">",
        &[spot.middle, spot.down],
    )?;
    match when {
        When::Time(minute) => figures::put_clock(rt, page, minute)?,
        When::Day(day) => page.put_number(rt, day as u64)?,
    }
    let line = sizes::line(plot.text) as u64;
    svg::put_form(rt, page, b"<tspan x=\"@\" dy=\"$\">", &[spot.middle, line])?;
    figures::put_height(rt, page, height, 0)?;
    page.put_bytes(rt, b"</tspan></text>\n")
}

// Puts the thin line from a mark towards its label, and the mark: full at high water, open at low water.
fn put_dot(rt: &impl Print, page: &mut Page, plot: Plot, spot: Spot, high: bool) -> io::Result<()> {
    svg::put_form(
        rt,
        page,
        b"<path d=\"M@ $V~\" stroke=\"#999\" stroke-width=\"5\"/>\n<circle cx=\"@\" cy=\"$\" r=\"^\" fill=\"",
        &[spot.x, spot.y, spot.leader, plot.text as u64 / 3],
    )?;
    page.put_bytes(rt, if high { b"#0b4f8a" } else { b"#fff" })?;
    page.put_bytes(rt, b"\" stroke=\"#0b4f8a\" stroke-width=\"10\"/>\n")
}

// Puts a turn's mark, and its label where a lane is free for it; gives the lanes after it.
pub fn put_mark(
    rt: &impl Print,
    page: &mut Page,
    plot: Plot,
    lanes: Lanes,
    when: When,
    turn: Turn,
) -> io::Result<Lanes> {
    let spot = spots::spot_of(plot, lanes, turn.minute, turn.height, turn.high);
    put_dot(rt, page, plot, spot, turn.high)?;
    let placed = spot.placed;
    if placed.lane.is_some() {
        put_label(rt, page, plot, spot, when, turn.height)?;
    }
    Ok(placed.lanes)
}
