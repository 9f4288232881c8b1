// All lines of the file.
ghost use Rattle.std.specs.Prelude.{◌≡◌, ◌*◌, ◌≤◌, length, take};
ghost use Rattle.columns.specs.Lines.{lines_of};
ghost use Rattle.daybook.specs.Bookings.{longest_of, most_bookings};
ghost use Rattle.daybook.specs.inner.Reading.{ReadPost};

use crate::booking::{booking_of, without_return};

// The longest file that is read, in bytes.
pub const FILE: usize = 65_536;

// No such file has more bookings: each takes eight bytes at the least.
pub const PLACES: usize = FILE / 8;

// A line that is no booking, by its number, the first being 1.
#[derive(Clone, Copy, Debug, PartialEq, Eq)]
pub struct NoBooking {
    pub line: usize,
}

// Fills in the minutes of the bookings of a file; gives how many there are.
#[tactic(auto, using(crate::proofs::reading::Walk::rest_shorter, crate::proofs::reading::Walk::rest_far, crate::proofs::reading::Walk::stops, crate::proofs::reading::Walk::one_more, crate::proofs::reading::Walk::no_more))]
fn fill_minutes(file: &[u8], minutes: &mut [u32]) -> Result<usize, NoBooking>
    requires { length file.now ≤ 8 * length minutes.old }
    ensures { ReadPost file.now (length minutes.old) minutes.new result }
{
    let mut rest = file;
    let mut count = 0;
    // (No `for`: a line's end shows where the next begins, and `split` at the LFs would give one line more behind the last LF, which `lines_of` does not have.)
    while !rest.is_empty() {
        let Some(minute) = booking_of(without_return(columns::first_line(rest))) else {
            return Err(NoBooking { line: count + 1 });
        };
        minutes[count] = minute;
        count += 1;
        rest = columns::rest_lines(rest);
    }
    Ok(count)
}

// Fills in the minutes of the bookings of a file, which is the first bytes of a buffer. (The buffer's type bounds the file: a slice would need a
// `requires`.)
pub fn read(
    buffer: &[u8; FILE],
    bytes: usize,
    minutes: &mut [u32; PLACES],
) -> Result<usize, NoBooking>
    ensures { ReadPost (take bytes buffer.now) most_bookings minutes.new result }
{
    fill_minutes(columns::part(buffer, 0, bytes), minutes)
}

// The length of the longest line of a file.
#[tactic(auto, using(crate::proofs::reading::Walk::rest_shorter, crate::proofs::reading::Walk::longest_here, crate::proofs::reading::Walk::longest_none))]
pub fn longest_line(file: &[u8]) -> usize
    ensures { result ≡ longest_of (lines_of file.now) }
{
    let mut longest = 0;
    let mut rest = file;
    // (No `for`: a line's end shows where the next begins, and `split` at the LFs would give one line more behind the last LF, which `lines_of` does not have.)
    while !rest.is_empty() {
        longest = longest.max(without_return(columns::first_line(rest)).len());
        rest = columns::rest_lines(rest);
    }
    longest
}
