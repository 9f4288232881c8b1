// The turns of a whole month, and of a whole year, for sheets and drawings.
//
// 01's search ends where a stride would pass the last minute asked. From the month's first minute on it so leaves out a turn in what is left
// of the month behind its last whole stride, and a sheet without that turn would name a later one as the next. Searches over the month's last
// minutes alone, as long as each of the station's strides, find it.
#![tactic(auto)]

ghost use Rattle.std.specs.Prelude.{◌+◌, ◌≤◌};
ghost use Rattle.clock.specs.View.{Made};
ghost use Rattle.monthturns.specs.inner.Kept.{Kept};
ghost use Rattle.monthturns.specs.Month.{MonthTurns, FoundTurns};

mod widths; // how wide the searches at the end are
pub mod yearturns; // the turns of a year

use crate::widths::{Widths, widest_first};
use clock::Clock;
use limits::STRIDE;
use page::shown::{TURNS, Turn, Turns, Waters};
use refusals::Refused;
use station::strides::Strides;
use turns::Summary;

// The most turns that so short a search finds: one at each minute of the widest stride.
const ENDS: usize = STRIDE as usize;

// The last turns of three searches, the widest first, where they find any.
#[derive(Clone, Copy)]
struct Ends {
    far: Option<Turn>,
    near: Option<Turn>,
    end: Option<Turn>,
}

// The last of turns in two rows.
fn last_of(known: Summary, minutes: &[u32], heights: &[i64]) -> Option<Turn> {
    if known.count == 0 {
        return None;
    }
    let waters = Waters {
        count: known.count,
        first: known.high,
        minutes,
        heights,
    };
    Some(waters.turn(known.count - 1))
}

// The last turn of a search up to the last minute from so many minutes before it on, or from the first where there are not so many; none where it is refused.
fn turn_at_end<F: Fn(u32, &mut [u32], &mut [i64]) -> Result<Summary, Refused>>(
    search: &F,
    last: u32,
    width: u32,
) -> Option<Turn>
    requires { F.IsAlwaysCallable search.now }
{
    let mut minutes = [0u32; ENDS];
    let mut heights = [0i64; ENDS];
    match search(last.saturating_sub(width), &mut minutes, &mut heights) {
        Ok(found) => last_of(found, &minutes, &heights),
        Err(_) => None,
    }
}

// The last turns of searches up to the last minute, as wide as each width.
fn ends_of<F: Fn(u32, &mut [u32], &mut [i64]) -> Result<Summary, Refused>>(
    search: F,
    last: u32,
    widths: Widths,
) -> Ends
    requires { F.IsAlwaysCallable search }
{
    Ends {
        far: turn_at_end(&search, last, widths.far),
        near: turn_at_end(&search, last, widths.near),
        end: turn_at_end(&search, last, widths.end),
    }
}

// Whether a turn may follow the last that is known: it is later, and high where that is low.
fn follows(turn: Turn, known: Option<Turn>) -> bool {
    match known {
        None => true,
        Some(last) => last.minute < turn.minute && turn.high != last.high,
    }
}

// Puts a turn at a place of the buffers; whether both have it.
fn put_turn(at: usize, turn: Turn, minutes: &mut [u32], heights: &mut [i64]) -> bool
    ensures { Kept at minutes.old minutes.new heights.old heights.new }
{
    if minutes.len() <= at || heights.len() <= at {
        return false;
    }
    minutes[at] = turn.minute;
    heights[at] = turn.height;
    true
}

// Turns, and one more that was put behind them.
fn counted(known: Summary, high: bool) -> Summary
    ensures { (known.count ≤ result.count) × (result.count ≤ known.count + 1) }
{
    Summary {
        count: known.count.saturating_add(1),
        high: if known.count == 0 { high } else { known.high },
    }
}

// Turns and one more, where it may follow the last of them.
fn with_turn(
    known: Summary,
    turn: Option<Turn>,
    minutes: &mut [u32],
    heights: &mut [i64],
) -> Summary
    ensures count_le_count { (known.count ≤ result.count) × (result.count ≤ known.count + 1) }
    ensures kept { Kept known.count minutes.old minutes.new heights.old heights.new }
{
    let Some(next) = turn else {
        return known;
    };
    if !follows(next, last_of(known, minutes, heights)) {
        return known;
    }
    if !put_turn(known.count, next, minutes, heights) {
        return known;
    }
    counted(known, next.high)
}

// Turns and the three that may stand at the end.
fn with_ends(known: Summary, ends: Ends, minutes: &mut [u32], heights: &mut [i64]) -> Summary
    ensures count_le_count { (known.count ≤ result.count) × (result.count ≤ known.count + 3) }
    ensures kept { Kept known.count minutes.old minutes.new heights.old heights.new }
{
    let a = with_turn(known, ends.far, minutes, heights);
    let b = with_turn(a, ends.near, minutes, heights);
    with_turn(b, ends.end, minutes, heights)
}

// The turns of the month that a clock has prepared, whose last minute is given, from the front of the buffers: 01's search over the whole
// month, and what searches of three widths find behind its last stride at the month's end. A refusal is the clock's.
fn month_turns(
    clock: Clock,
    last: u32,
    widths: Widths,
    minutes: &mut [u32],
    heights: &mut [i64],
) -> Result<Summary, Refused>
    requires { Made clock }
    ensures { MonthTurns clock last minutes.old minutes.new heights.old heights.new result }
{
    // No `?`: the wrong answer `another_place` is a slip in the arm of a refusal.
    let found = match clock::turns(clock, 0, last, minutes, heights) {
        Ok(found) => found,
        Err(refused) => return Err(refused),
    };
    let ends = ends_of(
        |from, m, h| clock::turns(clock, from, last, m, h),
        last,
        widths,
    );
    Ok(with_ends(found, ends, minutes, heights))
}

// The turns of the month that a clock has prepared, whose last minute is given, at a station with these strides, or the clock's refusal.
pub fn turns_of(clock: Clock, last: u32, strides: Strides) -> Result<Turns, Refused>
    requires { Made clock }
    ensures { FoundTurns clock last result }
{
    let widths = widest_first(strides);
    let mut minutes = [0u32; TURNS];
    let mut heights = [0i64; TURNS];
    let found = month_turns(clock, last, widths, &mut minutes, &mut heights)?;
    Ok(Turns {
        count: found.count,
        first: found.high,
        minutes,
        heights,
    })
}
