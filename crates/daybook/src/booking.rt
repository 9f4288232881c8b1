// One line of the file.
ghost use Rattle.std.specs.Prelude.{◌≡◌, ◌-◌, ◌≤◌};
ghost use Rattle.daybook.specs.Booking.{without_return, day_of, booking_of};

use commandline::times;
use digits::dates;

// A line without the CR at its end.
#[tactic(auto, unfolding(crate::specs::Booking::without_return))]
pub fn without_return(line: &[u8]) -> &[u8]
    ensures { result.now ≡ without_return line.now }
{
    match line {
        [front @ .., b'\r'] => front,
        _ => line,
    }
}

// The number that a digit is.
fn digit(byte: u8) -> u32
    requires { 48 ≤ byte }
    ensures { result ≡ byte - 48 }
{
    (byte - b'0') as u32
}

// The day that a line begins with; 0 where it begins with none. (`day_of` of specs/Booking.antt has that 0: day 00 is none, too.)
fn day_of(line: &[u8]) -> u32
    ensures { result ≡ day_of line.now }
{
    if columns::all_among(line, 0, 2, b'0', b'9') {
        return 10 * digit(columns::column(line, 0)) + digit(columns::column(line, 1));
    }
    0
}

// The minute of the month that a line books; none where it is no booking.
#[tactic(auto, unfolding(crate::specs::Booking::booking_of))]
pub fn booking_of(line: &[u8]) -> Option<u32>
    ensures { result ≡ booking_of line.now }
{
    if columns::column(line, 2) != b' ' {
        return None;
    }
    if columns::all_among(line, 8, 9, b'0', b'9') {
        return None;
    }
    let day = day_of(line);
    if day == 0 {
        return None;
    }
    let minute = times::time_of(columns::part(line, 3, 5))?;
    Some(dates::minute_of_month(day, minute))
}
