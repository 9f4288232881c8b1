// Writing to standard output by pages: what is put stands in a lent page until the page is full or flushed.
#![tactic(auto)]

ghost use Rattle.std.specs.Prelude.{◌≡◌, ◌≤◌, min, length, IfOk};

pub mod pages; // a page with the place behind what was put last

use std::io;

// Writes out the first bytes of a page; the next byte goes to its start.
pub fn flush(rt: &impl Print, page: &[u8], at: usize) -> io::Result<usize>
    ensures { IfOk result (λ next. next ≡ 0) }
{
    if at <= page.len() {
        rt.write_all(&page[..at])?;
    }
    Ok(0)
}

// Puts a byte at a place of a page, at its start once it is full and written out; gives the place after it.
pub fn put(rt: &impl Print, page: &mut [u8], at: usize, byte: u8) -> io::Result<usize>
    ensures { IfOk result (λ next. next ≤ length page.old) }
{
    if at < page.len() {
        page[at] = byte;
        return Ok(at + 1);
    }
    flush(rt, page, page.len())?;
    if 0 < page.len() {
        page[0] = byte;
        return Ok(1);
    }
    Ok(0)
}

// A place on a page of a length, or its end where the place lies behind it.
pub fn on_page(length: usize, at: usize) -> usize
    ensures { result ≡ min at length }
{
    at.min(length)
}

// Puts bytes one after another; gives the place after the last.
pub fn put_bytes(rt: &impl Print, page: &mut [u8], at: usize, bytes: &[u8]) -> io::Result<usize>
    ensures { IfOk result (λ next. next ≤ length page.old) }
{
    let mut next = on_page(page.len(), at);
    for byte in bytes {
        next = put(rt, page, next, *byte)?;
    }
    Ok(next)
}

// Puts a number in decimal; gives the place after it.
pub fn put_number(rt: &impl Print, page: &mut [u8], at: usize, number: u64) -> io::Result<usize>
    ensures { IfOk result (λ next. next ≤ length page.old) }
{
    let mut text = itoa::Buffer::new();
    put_bytes(rt, page, at, text.format(number).as_bytes())
}

// Puts a number of a size in decimal, with a minus where it is negative; gives the place after it.
pub fn put_size(
    rt: &impl Print,
    page: &mut [u8],
    at: usize,
    negative: bool,
    size: u64,
) -> io::Result<usize>
    ensures { IfOk result (λ next. next ≤ length page.old) }
{
    if negative {
        let next = put(rt, page, at, b'-')?;
        return put_number(rt, page, next, size);
    }
    put_number(rt, page, at, size)
}

// Puts a number in decimal, with a minus where it is negative; gives the place after it.
pub fn put_signed(rt: &impl Print, page: &mut [u8], at: usize, number: i64) -> io::Result<usize>
    ensures { IfOk result (λ next. next ≤ length page.old) }
{
    put_size(rt, page, at, number < 0, angles::size(number))
}
