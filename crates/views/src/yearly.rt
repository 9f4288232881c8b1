// A year of a clock that has a station: its sheet, and its turns for other programs.
ghost use Rattle.clock.specs.View.{Made};

use crate::View;
use monthturns::yearturns;
use output::pages::Page;
use page::shown;
use page::shown::Waters;
use refusals::Answer;
use sheets::{csv, yearsheet};
use std::io;

// Writes a page of a year's turns, as a closure puts them, or gives the clock's refusal.
fn with_turns<F: Fn(&mut Page, Waters) -> io::Result<()>>(
    rt: HostRuntime,
    view: &View,
    put_turns: F,
) -> io::Result<Answer>
    requires made { Made view.now.clock }
    requires callable { F.IsAlwaysCallable put_turns }
{
    let mut minutes = shown::minute_places();
    let mut heights = shown::height_places();
    let strides = view.face.ground.strides;
    let year = view.date.year;
    let answer = yearturns::turns_of(
        view.clock,
        year,
        1,
        strides,
        &mut [],
        &mut minutes,
        &mut heights,
    );
    let found = match answer {
        Ok(found) => found,
        Err(refused) => return Ok(Err(refused)),
    };
    let waters = Waters {
        count: found.count,
        first: found.high,
        minutes: &minutes,
        heights: &heights,
    };
    let mut page = Page::new();
    put_turns(&mut page, waters)?;
    page.flush(&rt)?;
    Ok(Ok(()))
}

// year YEAR: the high and low waters of each day, or the clock's refusal.
pub fn year(rt: HostRuntime, view: &View) -> io::Result<Answer>
    requires { Made view.now.clock }
{
    with_turns(rt, view, |page, waters| {
        yearsheet::put_year(&rt, page, view.face, view.date, waters)
    })
}

// year YEAR --csv: the year's turns as rows, or the clock's refusal.
pub fn year_table(rt: HostRuntime, view: &View) -> io::Result<Answer>
    requires { Made view.now.clock }
{
    with_turns(rt, view, |page, waters| {
        csv::put_year(&rt, page, view.face, view.date, waters)
    })
}
