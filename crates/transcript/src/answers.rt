// The lines that answer a script. Each function puts one on the page and gives the place behind it, which is on the page. (The place is no field of a page: that
// it lies on the page is a clause of each, which the wrong answer `line_number_for_a_place` tries.)
ghost use Rattle.std.specs.Prelude.{◌≡◌, ◌≤◌, length, slice_index, slice_index_or, pos, IfOk};

use refusals::{Answer, Refused};
use std::io;

// script LINE
pub fn put_script(rt: &impl Print, page: &mut [u8], at: usize, line: u64) -> io::Result<usize>
    ensures { IfOk result (λ next. next ≤ length page.old) }
{
    let word = output::put_bytes(rt, page, at, b"script ")?;
    let digits = output::put_number(rt, page, word, line)?;
    output::put(rt, page, digits, b'\n')
}

// refused NUMBER PLACE
pub fn put_refused(
    rt: &impl Print,
    page: &mut [u8],
    at: usize,
    refused: Refused,
) -> io::Result<usize>
    ensures { IfOk result (λ next. next ≤ length page.old) }
{
    let number = refusals::number_of(refused.refusal);
    let word = output::put_bytes(rt, page, at, b"refused ")?;
    let first = output::put_number(rt, page, word, number as u64)?;
    let blank = output::put(rt, page, first, b' ')?;
    let end = output::put_number(rt, page, blank, refused.place as u64)?;
    output::put(rt, page, end, b'\n')
}

// accepted
fn put_accepted(rt: &impl Print, page: &mut [u8], at: usize) -> io::Result<usize>
    ensures { IfOk result (λ next. next ≤ length page.old) }
{
    let end = output::put_bytes(rt, page, at, b"accepted")?;
    output::put(rt, page, end, b'\n')
}

// accepted, or refused NUMBER PLACE
pub fn put_answer(rt: &impl Print, page: &mut [u8], at: usize, answer: Answer) -> io::Result<usize>
    ensures { IfOk result (λ next. next ≤ length page.old) }
{
    match answer {
        Ok(()) => put_accepted(rt, page, at),
        Err(refused) => put_refused(rt, page, at, refused),
    }
}

// height H
pub fn put_height(rt: &impl Print, page: &mut [u8], at: usize, height: i64) -> io::Result<usize>
    ensures { IfOk result (λ next. next ≤ length page.old) }
{
    let word = output::put_bytes(rt, page, at, b"height ")?;
    let end = output::put_signed(rt, page, word, height)?;
    output::put(rt, page, end, b'\n')
}

// The heights, each behind a blank.
fn put_each(rt: &impl Print, page: &mut [u8], at: usize, heights: &[i64]) -> io::Result<usize> {
    let mut next = at;
    for height in heights {
        next = output::put(rt, page, next, b' ')?;
        next = output::put_signed(rt, page, next, *height)?;
    }
    Ok(next)
}

// heights H0 H1 ...
fn put_heights(rt: &impl Print, page: &mut [u8], at: usize, heights: &[i64]) -> io::Result<usize>
    ensures { IfOk result (λ next. next ≤ length page.old) }
{
    let word = output::put_bytes(rt, page, at, b"heights")?;
    let end = put_each(rt, page, word, heights)?;
    output::put(rt, page, end, b'\n')
}

// What a series says: its heights where it is accepted.
pub fn put_series(
    rt: &impl Print,
    page: &mut [u8],
    at: usize,
    answer: Answer,
    heights: &[i64],
) -> io::Result<usize>
    ensures { IfOk result (λ next. next ≤ length page.old) }
{
    match answer {
        Ok(()) => put_heights(rt, page, at, heights),
        Err(refused) => put_refused(rt, page, at, refused),
    }
}

// turns COUNT FIRST_HIGH
fn put_count(
    rt: &impl Print,
    page: &mut [u8],
    at: usize,
    count: usize,
    high: bool,
) -> io::Result<usize> {
    let word = output::put_bytes(rt, page, at, b"turns ")?;
    let end = output::put_number(rt, page, word, count as u64)?;
    if high {
        return output::put_bytes(rt, page, end, b" 1");
    }
    output::put_bytes(rt, page, end, b" 0")
}

// A blank, a turn's minute, a blank and its height.
fn put_turn(
    rt: &impl Print,
    page: &mut [u8],
    at: usize,
    minute: u32,
    height: i64,
) -> io::Result<usize> {
    let first = output::put(rt, page, at, b' ')?;
    let end = output::put_number(rt, page, first, minute as u64)?;
    let second = output::put(rt, page, end, b' ')?;
    output::put_signed(rt, page, second, height)
}

// What stands at a place of a row; zero past its end.
fn item_at<T: Copy>(row: &[T], i: usize, zero: T) -> T
    ensures { result ≡ slice_index_or row.now i zero }
{
    row.get(i).copied().unwrap_or(zero)
}

// The minute at a place; 0 past the end.
fn minute_at(minutes: &[u32], i: usize) -> u32
    ensures { result ≡ slice_index minutes.now i }
{
    item_at(minutes, i, 0)
}

// The height at a place; 0 past the end.
fn height_at(heights: &[i64], i: usize) -> i64
    ensures { result ≡ slice_index_or heights.now i (pos 0) }
{
    item_at(heights, i, 0)
}

// The turns found, each behind a blank, and LF.
fn put_found<'a>(
    rt: &impl Print,
    page: &mut [u8],
    at: usize,
    count: usize,
    minutes: &'a [u32],
    heights: &'a [i64],
) -> io::Result<usize>
    ensures { IfOk result (λ next. next ≤ length page.old) }
{
    let mut next = at;
    for i in 0..count {
        next = put_turn(rt, page, next, minute_at(minutes, i), height_at(heights, i))?;
    }
    output::put(rt, page, next, b'\n')
}

// turns COUNT FIRST_HIGH M0 H0 M1 H1 ...
pub fn put_turns<'a>(
    rt: &impl Print,
    page: &mut [u8],
    at: usize,
    count: usize,
    high: bool,
    minutes: &'a [u32],
    heights: &'a [i64],
) -> io::Result<usize>
    ensures { IfOk result (λ next. next ≤ length page.old) }
{
    let next = put_count(rt, page, at, count, high)?;
    put_found(rt, page, next, count, minutes, heights)
}

// year COUNT H0 H1 ... and a blank, before the turns of the year's search
pub fn put_year(rt: &impl Print, page: &mut [u8], at: usize, heights: &[i64]) -> io::Result<usize>
    ensures { IfOk result (λ next. next ≤ length page.old) }
{
    let word = output::put_bytes(rt, page, at, b"year ")?;
    let count = output::put_number(rt, page, word, heights.len() as u64)?;
    let end = put_each(rt, page, count, heights)?;
    output::put(rt, page, end, b' ')
}

// hourly N, and behind its LF the N bytes of the cards
pub fn put_hourly(rt: &impl Print, page: &mut [u8], at: usize, cards: &[u8]) -> io::Result<usize>
    ensures { IfOk result (λ next. next ≤ length page.old) }
{
    let word = output::put_bytes(rt, page, at, b"hourly ")?;
    let count = output::put_number(rt, page, word, cards.len() as u64)?;
    let end = output::put(rt, page, count, b'\n')?;
    output::put_bytes(rt, page, end, cards)
}
