// Writes fixed cosines and sines, day counts and month lengths, one labelled line each.
#![tactic(auto)]

ghost use Rattle.cosine.specs.Fixed.{IsTable};

use angles::TURN;
use cosine::ENTRIES;
use std::io;

// Puts a label and a number.
fn labelled(
    rt: &impl Print,
    page: &mut [u8],
    at: usize,
    label: &[u8],
    number: i64,
) -> io::Result<usize> {
    let next = output::put_bytes(rt, page, at, label)?;
    output::put_signed(rt, page, next, number)
}

// Puts an angle's line: its ticks, fixed cosine and fixed sine.
fn angle(
    rt: &impl Print,
    table: &[u32; ENTRIES],
    page: &mut [u8],
    at: usize,
    ticks: u64,
) -> io::Result<usize>
    requires { IsTable table.now }
{
    let wave = cosine::wave(table, ticks);
    let start = output::put_bytes(rt, page, at, b"ticks ")?;
    let a = output::put_number(rt, page, start, ticks)?;
    let b = labelled(rt, page, a, b" cosine ", wave.cosine)?;
    let c = labelled(rt, page, b, b" sine ", wave.sine)?;
    output::put(rt, page, c, b'\n')
}

// Puts a date's line: the date, its day count and the length of its month.
fn date(
    rt: &impl Print,
    page: &mut [u8],
    at: usize,
    year: u32,
    month: u32,
    day: u32,
) -> io::Result<usize> {
    let a = labelled(rt, page, at, b"date ", year as i64)?;
    let b = labelled(rt, page, a, b" ", month as i64)?;
    let c = labelled(rt, page, b, b" ", day as i64)?;
    let d = labelled(
        rt,
        page,
        c,
        b" days ",
        calendar::day_count(year, month, day),
    )?;
    let e = labelled(
        rt,
        page,
        d,
        b" month ",
        calendar::month_days(year, month) as i64,
    )?;
    output::put(rt, page, e, b'\n')
}

// Angles at eighths of a turn, which are entries of the table.
fn eighths(rt: &impl Print, table: &[u32; ENTRIES], page: &mut [u8], at: usize) -> io::Result<usize>
    requires { IsTable table.now }
{
    let a = angle(rt, table, page, at, 0)?;
    let b = angle(rt, table, page, a, TURN / 8)?;
    let c = angle(rt, table, page, b, TURN / 4)?;
    angle(rt, table, page, c, TURN / 2)
}

// Angles between two entries, the last of them past seven turns.
fn others(rt: &impl Print, table: &[u32; ENTRIES], page: &mut [u8], at: usize) -> io::Result<usize>
    requires { IsTable table.now }
{
    let a = angle(rt, table, page, at, 1)?;
    let b = angle(rt, table, page, a, 123_456_789_012_345)?;
    let c = angle(rt, table, page, b, TURN - 1)?;
    angle(rt, table, page, c, 7 * TURN + TURN / 8 + 1)
}

// Dates at the ends of the range, about 1 January 1976, and about leap days.
fn dates(rt: &impl Print, page: &mut [u8], at: usize) -> io::Result<usize> {
    let a = date(rt, page, at, 1950, 1, 1)?;
    let b = date(rt, page, a, 1975, 12, 31)?;
    let c = date(rt, page, b, 1976, 1, 1)?;
    let d = date(rt, page, c, 1976, 2, 29)?;
    let e = date(rt, page, d, 2000, 3, 1)?;
    date(rt, page, e, 2049, 12, 16)
}

fn main(rt: HostRuntime) -> io::Result<()> {
    let table = cosine::cosines();
    let mut page = [0u8; 4096];
    let a = eighths(&rt, &table, &mut page, 0)?;
    let b = others(&rt, &table, &mut page, a)?;
    let c = dates(&rt, &mut page, b)?;
    output::flush(&rt, &page, c)?;
    Ok(())
}
