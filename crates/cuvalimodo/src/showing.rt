// What is asked, of a clock that has a station, or the clock's refusal of the date, said.
ghost use Rattle.clock.specs.View.{Made};

use crate::Asking;
use crate::loading::load;
use commandline::Asked;
use page::shown::{Date, YEAR_TURNS};
use refusals::{Answer, Refused};
use std::io;
use views::{Span, View};

// A date: a day of a month, or day 0 for the whole month, month 0 for the whole year.
fn date_of(year: u32, month: u32, day: u32) -> Date {
    Date { year, month, day }
}

// The date that is asked for; the year 0 where none is.
pub fn asked_date(asked: Asked) -> Date {
    match asked {
        Asked::Day(year, month, day, _)
        | Asked::Series(year, month, day, _, _, _)
        | Asked::DayDrawing(year, month, day) => date_of(year, month, day),
        Asked::Month(year, month)
        | Asked::MonthDrawing(year, month)
        | Asked::Heights(year, month, _)
        | Asked::Bookings(year, month, _)
        | Asked::Hourly(year, month, _) => date_of(year, month, 0),
        Asked::Year(year) | Asked::YearTable(year) | Asked::YearDrawing(year) => {
            date_of(year, 0, 0)
        }
        Asked::Help | Asked::Refusals => date_of(0, 0, 0),
    }
}

// Says the refusal of a date: at a record of the station file, or by the year or the month.
fn say_date(rt: HostRuntime, asking: &Asking, date: Date, refused: Refused) -> io::Result<()> {
    let refusal = refused.refusal;
    if 0 < refused.place {
        let line = crate::line_of(refused.place);
        return messages::refused_plainly(rt, asking.station_path(), line, refusal);
    }
    if calendar::in_range(1976, date.month) {
        return messages::refused_turns(rt, b"year", date.year as u64, YEAR_TURNS, refusal);
    }
    messages::refused_month(rt, date.month, refusal)
}

// What is asked of a year, or the clock's refusal; none where something else is asked.
fn show_year(rt: HostRuntime, view: &View, asked: Asked) -> io::Result<Option<Answer>>
    requires { Made view.now.clock }
{
    Ok(Some(match asked {
        Asked::Year(_) => views::year(rt, view)?,
        Asked::YearTable(_) => views::year_table(rt, view)?,
        Asked::YearDrawing(_) => drawing::year(rt, view.clock, view.face, view.date)?,
        _ => return Ok(None),
    }))
}

// The bookings of the file whose name begins at a byte of the words, of a clock that has prepared the month.
fn show_bookings(rt: HostRuntime, view: &View, words: &[u8], at: usize) -> io::Result<()>
    requires { Made view.now.clock }
{
    let mut buffer = [0u8; 65536];
    match load(rt, words, at, &mut buffer)? {
        Some(bytes) => views::bookings(rt, view, commandline::word(words, at), &buffer, bytes),
        None => Ok(()),
    }
}

// What is asked of a month or its days, of a clock that has prepared the month.
fn show_month(rt: HostRuntime, view: &View, words: &[u8], asked: Asked) -> io::Result<()>
    requires { Made view.now.clock }
{
    match asked {
        Asked::Month(_, _) => views::month(rt, view),
        Asked::Day(_, _, _, minute) => views::day(rt, view, minute),
        Asked::Heights(_, _, step) => views::heights(rt, view, step),
        Asked::Series(_, _, _, start, step, count) => {
            views::series(rt, view, Span { start, step, count })
        }
        Asked::MonthDrawing(_, _) => drawing::month(rt, view.clock, view.face, view.date),
        Asked::DayDrawing(_, _, _) => drawing::day(rt, view.clock, view.face, view.date),
        Asked::Bookings(_, _, at) => show_bookings(rt, view, words, at),
        Asked::Hourly(_, _, station) => views::hourly(rt, view, station),
        _ => Ok(()),
    }
}

// What is asked, of a clock with table and station.
pub fn show(rt: HostRuntime, view: &View, asking: &Asking) -> io::Result<()>
    requires { Made view.now.clock }
{
    let asked = asking.request.asked;
    let date = view.date;
    if let Some(answer) = show_year(rt, view, asked)? {
        return match answer {
            Ok(()) => Ok(()),
            Err(refused) => say_date(rt, asking, date_of(date.year, 1, 0), refused),
        };
    }
    let after = clock::set_date(view.clock, date.year, date.month);
    if let Err(refused) = after.answer {
        return say_date(rt, asking, date, refused);
    }
    let prepared = View {
        clock: after.clock,
        face: view.face,
        date,
    };
    show_month(rt, &prepared, asking.words, asked)
}
