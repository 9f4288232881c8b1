// Drawings of the clock's month, and of a year, as SVG on standard output.
//
// Heights and turns are the clock's; crate drawing_picture gives them places. What the clock refuses is said, and nothing is drawn.
#![tactic(auto)]

ghost use Rattle.std.specs.Prelude.{◌≤◌};
ghost use Rattle.clock.specs.View.{Made};

use clock::Clock;
use digits::dates;
use drawing_picture::{picture, title, yearband};
use drawing_plots::plots;
use messages::months::Month;
use monthturns::yearturns;
use output::pages::Page;
use page::face::Face;
use page::shown;
use page::shown::{Date, TURNS, Waters};
use refusals::{Answer, Refused};
use std::io;
use swings::months;

// What a drawing says of itself: its head, how high it is, where its foot stands, and how it is read.
#[derive(Clone, Copy)]
struct Sheet<'a> {
    face: Face<'a>,
    date: Date,
    height: u64,
    foot: u64,
    key: &'a [u8],
}

// How a drawing of a day or a month is read.
const TURNS_KEY: &[u8] = b"full marks: high water; open marks: low water";

// Writes a drawing, whose plots are put between its head and its foot.
fn write<F: FnOnce(&mut Page) -> io::Result<()>>(
    rt: &impl Print,
    sheet: Sheet,
    put_plots: F,
) -> io::Result<()>
    requires { F.IsAlwaysCallable put_plots }
{
    let mut page = Page::new();
    title::put_start(rt, &mut page, sheet.height)?;
    title::put_head(rt, &mut page, sheet.face, sheet.date)?;
    put_plots(&mut page)?;
    title::put_foot(rt, &mut page, sheet.foot, sheet.key, sheet.face.ground)?;
    page.flush(rt)
}

// Writes the drawing of a day from its heights and the month's turns.
fn write_day(
    rt: &impl Print,
    face: Face,
    date: Date,
    heights: &[i64],
    waters: Waters,
) -> io::Result<()> {
    let sheet = Sheet {
        face,
        date,
        height: 5_760,
        foot: 5_450,
        key: TURNS_KEY,
    };
    write(rt, sheet, |page| {
        picture::put_day(rt, page, date, heights, waters)
    })
}

// How many days the month of a date has.
fn days_of(date: Date) -> u16
    ensures { result ≤ 31 }
{
    plots::few(calendar::month_days(date.year, date.month))
}

// Writes the drawing of a month from its heights and its turns.
fn write_month(
    rt: &impl Print,
    face: Face,
    date: Date,
    heights: &[i64],
    waters: Waters,
) -> io::Result<()> {
    let days = days_of(date);
    let foot = plots::month_foot(days) as u64;
    let sheet = Sheet {
        face,
        date,
        height: foot + 310,
        foot,
        key: TURNS_KEY,
    };
    write(rt, sheet, |page| {
        picture::put_month(rt, page, days, heights, waters)
    })
}

// Says that the clock refused the month's turns.
// (A view of `views` says the same: it is one call of `messages::refused_turns`, which is the function for both.)
fn say_turns(rt: HostRuntime, date: Date, refused: Refused) -> io::Result<()> {
    messages::refused_turns(rt, b"month", date.month as u64, TURNS, refused.refusal)
}

// The drawing of a day whose heights are there.
fn day_turns(
    rt: HostRuntime,
    clock: Clock,
    face: Face,
    date: Date,
    heights: &[i64],
) -> io::Result<()>
    requires { Made clock }
{
    match monthturns::turns_of(clock, shown::last_minute(date), face.ground.strides) {
        Ok(turns) => write_day(&rt, face, date, heights, turns.lent()),
        Err(refused) => say_turns(rt, date, refused),
    }
}

// svg YEAR MONTH DAY: a drawing of a day of the month that a clock has prepared.
pub fn day(rt: HostRuntime, clock: Clock, face: Face, date: Date) -> io::Result<()>
    requires { Made clock }
{
    let mut heights = [0i64; 289];
    let start = dates::minute_of_month(date.day, 0);
    match clock::series(clock, start, 5, &mut heights) {
        Ok(()) => day_turns(rt, clock, face, date, &heights),
        Err(refused) => {
            let month = Month {
                year: date.year,
                month: date.month,
            };
            messages::refused_day(rt, month, date.day, refused.refusal)
        }
    }
}

// The drawing of a month whose turns are there.
fn month_curve(
    rt: HostRuntime,
    clock: Clock,
    face: Face,
    date: Date,
    waters: Waters,
) -> io::Result<()>
    requires { Made clock }
{
    let mut places = [0i64; 2_233];
    let heights = &mut places[..plots::month_count(days_of(date) as u32)];
    match clock::series(clock, 0, 20, heights) {
        Ok(()) => write_month(&rt, face, date, heights, waters),
        Err(refused) => messages::refused_month(rt, date.month, refused.refusal),
    }
}

// svg YEAR MONTH: a drawing of the month that a clock has prepared.
pub fn month(rt: HostRuntime, clock: Clock, face: Face, date: Date) -> io::Result<()>
    requires { Made clock }
{
    match monthturns::turns_of(clock, shown::last_minute(date), face.ground.strides) {
        Ok(turns) => month_curve(rt, clock, face, date, turns.lent()),
        Err(refused) => say_turns(rt, date, refused),
    }
}

// How many heights a year has, an hour apart, both ends among them.
fn hours_of(date: Date) -> usize
    ensures { result ≤ 8_929 }
{
    months::days_before(date.year, 13) as usize * 24 + 1
}

// Writes the drawing of a year from its hourly heights and its turns.
fn write_year(
    rt: &impl Print,
    face: Face,
    date: Date,
    hourly: &[i64],
    waters: Waters,
) -> io::Result<()> {
    let sheet = Sheet {
        face,
        date,
        height: 5_480,
        foot: 5_150,
        key: b"each day from its lowest to its highest water; marks: each month's highest and lowest, with the day",
    };
    write(rt, sheet, |page| {
        yearband::put_year(rt, page, date.year, hourly, waters)
    })
}

// svg YEAR: a drawing of a year of a clock that has a station, or the clock's refusal.
pub fn year(rt: HostRuntime, clock: Clock, face: Face, date: Date) -> io::Result<Answer>
    requires { Made clock }
{
    let mut places = [0i64; 8_929];
    let hourly = &mut places[..hours_of(date)];
    let mut minutes = shown::minute_places();
    let mut heights = shown::height_places();
    let answer = yearturns::turns_of(
        clock,
        date.year,
        60,
        face.ground.strides,
        hourly,
        &mut minutes,
        &mut heights,
    );
    match answer {
        Ok(found) => {
            let waters = Waters {
                count: found.count,
                first: found.high,
                minutes: &minutes,
                heights: &heights,
            };
            write_year(&rt, face, date, hourly, waters)?;
            Ok(Ok(()))
        }
        Err(refused) => Ok(Err(refused)),
    }
}
