// A month's hourly cards, from its constituents and its date.
ghost use Rattle.std.specs.Prelude.{◌≡◌, ◌/◌, length};
ghost use Rattle.limits.specs.Limits.{most_minutes};
ghost use Rattle.heights.specs.Height.{height_at};
ghost use Rattle.heights.specs.inner.Lent.{IsLent, constituents_lent};
ghost use Rattle.hourly.specs.Answers.{cards_returned};
ghost use Rattle.hourly.specs.Month.{cards_of, bytes_of, into_buffer};

use heights::Lent;
use limits::MINUTES;
use refusals::Refused;

// The full hours of the longest month.
const HOURS: usize = MINUTES / 60;

// Room for their heights. (A function's result, so that its length is known as a fact.)
fn hour_places() -> [i64; HOURS]
    ensures { most_minutes / 60 ≡ length result }
{
    [0; HOURS]
}

// The heights at the full hours of the month are worked out as a series, and their cards written.
pub fn cards(
    lent: Lent,
    year: u32,
    month: u32,
    number: u32,
    out: &mut [u8],
) -> Result<usize, Refused>
    requires { IsLent lent }
    ensures { record { returned = cards_returned result; buffer = out.new } ≡ into_buffer (bytes_of (cards_of (height_at (constituents_lent lent.entry)) number year month) (length out.old)) out.old }
{
    let end = 24 * calendar::month_days(year, month) as usize;
    let mut hours = hour_places();
    heights::series::series(lent, 60, 60, &mut hours[..end]);
    hourly::write_cards(&hours[..end], number, year, month, out)
}
