// The lines of the file, each with its height.
ghost use Rattle.std.specs.Prelude.{◌≡◌};
ghost use Rattle.daybook.specs.Booking.{shown_as};

use crate::booking::without_return;
use crate::reading;
use output::pages::Page;
use page::face::Face;
use page::shown::Date;
use page::{face, figures};
use std::io;

// A byte of a line as it is shown: a question mark for a control character, but a TAB as it is.
fn shown(byte: u8) -> u8
    ensures { result ≡ shown_as byte }
{
    match byte {
        b'\t' => b'\t',
        0..b' ' => b'?',
        _ => byte,
    }
}

// Puts a line as it is shown, blanks up to a width, and a height.
fn put_line(
    rt: &impl Print,
    page: &mut Page,
    line: &[u8],
    width: usize,
    height: i64,
) -> io::Result<()> {
    for byte in line {
        page.put(rt, shown(*byte))?;
    }
    figures::put_blanks(rt, page, width.saturating_sub(line.len()))?;
    page.put(rt, b' ')?;
    figures::put_height(rt, page, height, 3)?;
    page.put(rt, b'\n')
}

// Puts each line of a file with its height; 0 where there is none.
fn put_lines(rt: &impl Print, page: &mut Page, file: &[u8], heights: &[i64]) -> io::Result<()> {
    let width = reading::longest_line(file);
    let mut rest = file;
    let mut left = heights.iter();
    // (No `for`: a line's end shows where the next begins, and `split` at the LFs would give one line more behind the last LF, which `lines_of` does not have.)
    while !rest.is_empty() {
        let line = without_return(columns::first_line(rest));
        put_line(rt, page, line, width, left.next().copied().unwrap_or(0))?;
        rest = columns::rest_lines(rest);
    }
    Ok(())
}

// Puts the sheet of a month's bookings: its head, and the file's lines with their heights.
pub fn put_sheet(
    rt: &impl Print,
    page: &mut Page,
    face: Face,
    date: Date,
    file: &[u8],
    heights: &[i64],
) -> io::Result<()> {
    face::put_title(rt, page, face, date)?;
    face::put_stand(rt, page, face)?;
    page.put_bytes(rt, b"\n\n")?;
    put_lines(rt, page, file, heights)
}
