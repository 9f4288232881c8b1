// Turns of the water in months that follow one another, a single one or a year's: the stride of a station's tides, the search for where the
// slope changes sense, and what is written of the turns. The table of cosines and the arrays of the constituents are lent.
#![tactic(auto)]

ghost use Rattle.std.specs.Prelude.{◌≡◌, map, ◌≤◌, length};
ghost use Rattle.month_prepared.specs.inner.Rows.{last_of};
ghost use Rattle.turns.specs.inner.Lists.{Rows, slopes_in, heights_in};
ghost use Rattle.turns.specs.Search.{turns_of};
ghost use Rattle.turns.specs.inner.Search.{Reaches, Upto};
ghost use Rattle.turns.specs.Written.{from_front, given};
ghost use Rattle.turns.specs.inner.Answers.{given_of};

mod slopes; // the slope at a minute
mod sense; // rising or falling
mod bisection; // a bracket halved
mod search; // strides and turns
mod tides; // the kind of tides
pub mod strides; // a station's stride

use heights::months::LentMonths;
use limits::MINUTES;
use refusals::{Refusal, Refused};
pub use search::{Reach, Summary};

// How many turns are kept while they are counted: as many as a month has at a stride of 1, a turn in each minute. (A year of two high and two
// low waters a day has 1,411; one with more than these is searched a second time.)
const KEPT: usize = MINUTES;

// More turns than a lent buffer holds.
const TOO_MANY: Refused = Refused {
    refusal: Refusal::TooManyTurns,
    place: 0,
};

// Puts the kept minutes at the front of the lent places.
fn put_minutes(kept: &[u32], minutes: &mut [u32])
    requires { length kept.now ≤ length minutes.old }
    ensures { minutes.new ≡ from_front kept.now minutes.old }
{
    // (no `copy_from_slice`: it calls std's code, which `has-the-clock` of claim_runs can't have)
    for (i, minute) in kept.iter().enumerate() {
        minutes[i] = *minute;
    }
}

// Puts the heights at the minutes at the front of the lent places.
fn put_heights(lent: LentMonths, minutes: &[u32], heights: &mut [i64])
    requires rows { Rows lent }
    requires upto { Upto (last_of lent.months) minutes.now × (length minutes.now ≤ length heights.old) }
    ensures { heights.new ≡ from_front (map (heights_in lent.entry) minutes.now) heights.old }
{
    for (i, minute) in minutes.iter().enumerate() {
        heights[i] = heights::months::height(lent, *minute as u64);
    }
}

// Searches the months for turns from the first minute to the last: returns how many and whether the first is high, and writes their
// minutes and heights from the front of the lent buffers; refuses, and writes nothing, where there are more than either holds.
pub fn turns(
    lent: LentMonths,
    reach: Reach,
    minutes: &mut [u32],
    heights: &mut [i64],
) -> Result<Summary, Refused>
    requires rows { Rows lent }
    requires reaches { Reaches (last_of lent.months) reach }
    ensures { given_of result minutes.new heights.new ≡ given (heights_in lent.entry) (turns_of (slopes_in lent.entry) reach.stride reach.first reach.last) minutes.old heights.old }
{
    let mut kept = [0u32; KEPT];
    let found = search::find_turns(lent, reach, &mut kept);
    let many = found.count;
    if minutes.len() < many {
        return Err(TOO_MANY);
    }
    if heights.len() < many {
        return Err(TOO_MANY);
    }
    if many <= KEPT {
        put_minutes(&kept[..many], minutes);
    } else {
        search::find_turns(lent, reach, minutes);
    }
    put_heights(lent, &minutes[..many], heights);
    Ok(found)
}
