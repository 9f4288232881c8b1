// A constituent's angle at a minute.
ghost use Rattle.std.specs.Prelude.{◌≡◌, ◌≤◌, ◌<◌};
ghost use Rattle.limits.specs.Limits.{most_frequency, most_minutes};
ghost use Rattle.angles.specs.Ticks.{turn};
ghost use Rattle.heights.specs.Angle.{angle};

use angles::{CENTIDEGREE, TURN};
use limits::FREQUENCY;

// A frequency of 10^-10 cycle an hour moves an angle by this many ticks a minute,
pub const ADVANCE: u64 = 1_314;

// so a frequency of this many moves it by a whole turn.
pub const LAP: u64 = TURN / ADVANCE;

// Minutes from the month's start to its instant.
const INSTANT: u64 = 21_600;

// A constituent's angle at a minute, of a V below a turn and a frequency that a card can have: one division.
fn angle_of_card(argument: u64, lag: u16, frequency: u64, minute: u64) -> u64
    requires { (argument < turn) × ((frequency ≤ most_frequency) × (minute ≤ most_minutes)) }
    ensures { result ≡ angle argument lag frequency minute }
{
    let start = argument + (200 * TURN - lag as u64 * CENTIDEGREE);
    let back = frequency * (ADVANCE * INSTANT);
    (start + frequency * (ADVANCE * minute) - back) % TURN
}

// A constituent's angle at a minute.
pub fn angle_at(argument: u64, lag: u16, frequency: u64, minute: u64) -> u64
    requires { minute ≤ most_minutes }
    ensures { result ≡ angle argument lag frequency minute }
{
    if argument < TURN && frequency <= FREQUENCY {
        return angle_of_card(argument, lag, frequency, minute);
    }
    let f = frequency % LAP;
    let laps = f * minute + (LAP - f) * INSTANT;
    (argument % TURN + (2 * TURN - lag as u64 * CENTIDEGREE) + laps % LAP * ADVANCE) % TURN
}
