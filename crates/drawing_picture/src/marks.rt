// The high and low waters of a plot: each gets its mark, and a label where a lane is free.

use crate::labels;
use crate::labels::When;
use drawing_plots::scale::Plot;
use drawing_plots::{scale, spots};
use drawing_svg::svg;
use output::pages::Page;
use page::shown::Waters;
use std::io;

// Puts the high waters of a plot, or its low waters.
fn put_kind(
    rt: &impl Print,
    page: &mut Page,
    plot: Plot,
    waters: Waters,
    high: bool,
) -> io::Result<()> {
    let mut lanes = scale::free_lanes();
    for i in 0..waters.count {
        let turn = waters.turn(i);
        if turn.high == high && spots::belongs(plot, turn.minute) {
            lanes = labels::put_mark(rt, page, plot, lanes, When::Time(turn.minute), turn)?;
        }
    }
    Ok(())
}

// Puts the turns of a month that belong to a plot.
pub fn put_marks(rt: &impl Print, page: &mut Page, plot: Plot, waters: Waters) -> io::Result<()> {
    svg::put_group(rt, page, plot.text as u64)?;
    put_kind(rt, page, plot, waters, true)?;
    put_kind(rt, page, plot, waters, false)?;
    svg::end_group(rt, page)
}
