// Heights and turns for other programs: comma separated values, a row for each, behind lines that say what they stand on.

use digits::{dates, texts};
use output::pages::Page;
use page::face::Face;
use page::shown::{Date, Series, Turn, Waters};
use page::{face, figures};
use std::io;
use swings::months;

// A byte that is safe in a column's name: a letter or a digit as it is, any other as _.
fn plain(byte: u8) -> u8 {
    match byte {
        b'0'..=b'9' | b'A'..=b'Z' | b'a'..=b'z' => byte,
        _ => b'_',
    }
}

// Puts text as a part of a column's name.
fn put_plain(rt: &impl Print, page: &mut Page, text: &[u8]) -> io::Result<()> {
    for byte in text {
        page.put(rt, plain(*byte))?;
    }
    Ok(())
}

// Puts the name of the column of times: its zone is in it where that is not Greenwich's.
fn put_time_name(rt: &impl Print, page: &mut Page, zone: &[u8]) -> io::Result<()> {
    page.put_bytes(rt, b"time")?;
    if texts::is_greenwich(zone) {
        return Ok(());
    }
    page.put(rt, b'_')?;
    put_plain(rt, page, texts::trimmed(zone))
}

// Puts the columns' names, on a line; `between` stands between the time's and the height's.
fn put_names(rt: &impl Print, page: &mut Page, face: Face, between: &[u8]) -> io::Result<()> {
    put_time_name(rt, page, face.zone)?;
    page.put_bytes(rt, between)?;
    page.put_bytes(rt, b"height_")?;
    put_plain(rt, page, face.unit)?;
    page.put(rt, b'\n')
}

// Puts the lines before the rows: the station and the date, what the rows stand on, and the columns' names.
fn put_head(
    rt: &impl Print,
    page: &mut Page,
    face: Face,
    date: Date,
    between: &[u8],
) -> io::Result<()> {
    page.put_bytes(rt, b"# ")?;
    face::put_title(rt, page, face, date)?;
    page.put_bytes(rt, b"# ")?;
    face::put_scales(rt, page, face)?;
    page.put_bytes(rt, b"\n# ")?;
    face::put_ground(rt, page, face.ground)?;
    page.put(rt, b'\n')?;
    put_names(rt, page, face, between)
}

// Puts the time of a minute of a month, as 1976-07-01T00:00, behind it the mark of Greenwich's time where it is that, and a comma.
fn put_time(
    rt: &impl Print,
    page: &mut Page,
    greenwich: bool,
    date: Date,
    minute: u32,
) -> io::Result<()> {
    page.put_bytes(rt, &dates::iso_day(date.year, date.month, minute))?;
    figures::put_clock(rt, page, minute)?;
    page.put_bytes(rt, if greenwich { b"Z," } else { b"," })
}

// Puts a height, and ends its row.
fn put_height(rt: &impl Print, page: &mut Page, height: i64) -> io::Result<()> {
    figures::put_exact(rt, page, height)?;
    page.put(rt, b'\n')
}

// Puts the heights of a month with what they stand on before them, a row for each: its time and the height.
pub fn put_heights(
    rt: &impl Print,
    page: &mut Page,
    face: Face,
    date: Date,
    series: Series,
) -> io::Result<()> {
    put_head(rt, page, face, date, b",")?;
    let greenwich = texts::is_greenwich(face.zone);
    let mut minute = series.start;
    for height in series.heights {
        put_time(rt, page, greenwich, date, minute)?;
        put_height(rt, page, *height)?;
        minute = minute.wrapping_add(series.step);
    }
    Ok(())
}

// Puts the row of a turn: a time of its month, whether it is high or low water, and its height.
fn put_turn(
    rt: &impl Print,
    page: &mut Page,
    greenwich: bool,
    date: Date,
    turn: Turn,
) -> io::Result<()> {
    put_time(rt, page, greenwich, date, turn.minute)?;
    page.put_bytes(rt, if turn.high { b"high," } else { b"low," })?;
    put_height(rt, page, turn.height)
}

// Puts a row for each turn of a month of the year.
fn put_month(
    rt: &impl Print,
    page: &mut Page,
    greenwich: bool,
    date: Date,
    waters: Waters,
) -> io::Result<()> {
    let month = months::month_of(
        date.year,
        date.month,
        waters.count,
        waters.minutes,
        waters.heights,
    );
    for i in month.from..month.to {
        let turn = waters.turn(i);
        let shown = Turn {
            minute: months::minute_in(month, turn.minute),
            height: turn.height,
            high: turn.high,
        };
        put_turn(rt, page, greenwich, date, shown)?;
    }
    Ok(())
}

// Puts the turns of a year, whose minutes are counted from 1 January, with what they stand on before them.
pub fn put_year(
    rt: &impl Print,
    page: &mut Page,
    face: Face,
    date: Date,
    waters: Waters,
) -> io::Result<()> {
    let greenwich = texts::is_greenwich(face.zone);
    put_head(rt, page, face, date, b",water,")?;
    for month in 1..13 {
        let shown = Date {
            year: date.year,
            month,
            day: 0,
        };
        put_month(rt, page, greenwich, shown, waters)?;
    }
    Ok(())
}
