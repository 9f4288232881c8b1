// The manual's hourly cards, (I1,1X,I5,7X,3I2,12A4): a month's heights at its full hours, in centimetres, two cards a day.
#![tactic(auto)]

ghost use Rattle.std.specs.Prelude.{◌≡◌, ◌*◌, length};
ghost use Rattle.calendar.specs.Calendar.{month_days};
ghost use Rattle.hourly.specs.Answers.{cards_returned};
ghost use Rattle.hourly.specs.Month.{bytes_of, into_buffer};
ghost use Rattle.hourly.specs.inner.Hours.{cards_in};

use centimetres::HEIGHTS;
use refusals::{Refusal, Refused};
use writing::{HEADING, Heading};

mod centimetres; // heights in centimetres
mod writing; // cards written

// The largest station number.
pub const STATION_NUMBER: u32 = 99_999;

// The width of a height on these cards, and the bytes of a card.
pub const NARROW: usize = 4;

pub const CARD: usize = HEADING + HEIGHTS * NARROW + 1;

// The bytes of the longest month's cards, two a day.
pub const LONGEST: usize = 2 * 31 * CARD;

// Writes the cards of a month's hours, the heights at 01:00 of the 1st and on, and gives how many bytes they take; or it is refused: 33 of all
// heights before 34 of the buffer.
pub fn write_cards(
    hours: &[i64],
    station: u32,
    year: u32,
    month: u32,
    out: &mut [u8],
) -> Result<usize, Refused>
    requires { length hours.now ≡ 24 * month_days year month }
    ensures { record { returned = cards_returned result; buffer = out.new } ≡ into_buffer (bytes_of (cards_in hours.now station year month) (length out.old)) out.old }
{
    // No `?`: it calls std's code, which `has-the-clock` of claim_runs can't have.
    if let Err(refused) = centimetres::heights_answer(hours) {
        return Err(refused);
    }
    let cards = hours.len() / HEIGHTS;
    let bytes = CARD * cards;
    if out.len() < bytes {
        return Err(Refusal::ShortBuffer.at(0));
    }
    let heading = Heading {
        station,
        year,
        month,
    };
    writing::put_cards(out, NARROW, heading, hours, cards);
    Ok(bytes)
}
