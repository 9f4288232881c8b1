// The days' lines of a sheet: for each day how far the water moves, with a bar, so that spring and neap show at a glance, and its high and low waters.

ghost use Rattle.std.specs.Prelude.{◌≤◌};

use output::pages::Page;
use page::figures;
use page::shown::{Turn, Waters};
use std::io;

// Days that follow one another, of the days in all that the minutes are counted over: how many lie before them, how many they are, and the turn with which
// they begin.
#[derive(Clone, Copy)]
pub struct Days {
    pub before: u32,
    pub days: u32,
    pub all: u32,
    pub from: usize,
}

// High and low waters, and the largest swing of them all, whose bar is the longest.
#[derive(Clone, Copy)]
pub struct Measured<'a> {
    pub waters: Waters<'a>,
    pub largest: u64,
    ghost small: { largest ≤ 2_000_000_000_000 },
}

// A day's line: its number on the sheet, its number among all days, and its turns from one to before another.
#[derive(Clone, Copy)]
struct Line {
    number: u32,
    day: u32,
    from: usize,
    to: usize,
}

// High and low waters with their largest swing.
pub fn measure(waters: Waters) -> Measured {
    Measured {
        waters,
        largest: swings::largest_swing(waters.heights, waters.count, 0, waters.count),
    }
}

// Puts a bar, filled so far, in a column of ten.
fn put_bar(rt: &impl Print, page: &mut Page, filled: u64) -> io::Result<()> {
    for k in 0..10 {
        page.put(rt, if k < filled { b'=' } else { b' ' })?;
    }
    Ok(())
}

// Puts a turn: H or L, its time and its height.
fn put_turn(rt: &impl Print, page: &mut Page, day: u32, turn: Turn) -> io::Result<()> {
    page.put_bytes(rt, if turn.high { b" H " } else { b" L " })?;
    figures::put_time(rt, page, day, turn.minute)?;
    figures::put_height(rt, page, turn.height, 3)
}

// Puts a swing and its bar of a length; nothing where there is none.
fn put_swing(rt: &impl Print, page: &mut Page, swing: u64, length: u64) -> io::Result<()>
    requires { swing ≤ 2_000_000_000_000 }
{
    if swing == 0 {
        return figures::put_blanks(rt, page, 18);
    }
    figures::put_height(rt, page, swing as i64, 3)?;
    page.put(rt, b' ')?;
    put_bar(rt, page, length)
}

// Puts a day's line.
fn put_day(rt: &impl Print, page: &mut Page, line: Line, measured: Measured) -> io::Result<()> {
    let waters = measured.waters;
    figures::put_right(rt, page, line.number as u64, 2)?;
    let swing = swings::largest_swing(waters.heights, waters.count, line.from, line.to);
    put_swing(rt, page, swing, swings::bar_length(swing, measured.largest))?;
    for i in line.from..line.to {
        put_turn(rt, page, line.day, waters.turn(i))?;
    }
    page.put(rt, b'\n')
}

// Puts a line for each of some days.
pub fn put_days(
    rt: &impl Print,
    page: &mut Page,
    days: Days,
    measured: Measured,
) -> io::Result<()> {
    let waters = measured.waters;
    let mut from = days.from;
    for k in 0..days.days {
        let number = k + 1;
        let day = days.before.wrapping_add(number);
        let to = swings::day_end(waters.minutes, from, waters.count, day, days.all);
        let line = Line {
            number,
            day,
            from,
            to,
        };
        put_day(rt, page, line, measured)?;
        from = to;
    }
    Ok(())
}

// Puts the columns' names.
pub fn put_names(rt: &impl Print, page: &mut Page) -> io::Result<()> {
    page.put_bytes(
        rt,
        b"\n\nday  swing            high (H) and low (L) waters\n",
    )
}
