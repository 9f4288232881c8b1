// A day's sheet: the next high and low water, and the day's curve.
ghost use Rattle.clock.specs.View.{Made};

use crate::View;
use digits::dates;
use output::pages::SIZE;
use page::shown::{Turns, Waters};
use sheets::daysheet;
use sheets::daysheet::{Next, Water};
use std::io;

// The first high or low water, from a turn on; `later` in the month after.
fn first_turn(high: bool, from: usize, later: bool, waters: Waters) -> Option<Next> {
    for i in from..waters.count {
        let turn = waters.turn(i);
        if turn.high == high {
            return Some(Next {
                later,
                minute: turn.minute,
                height: turn.height,
            });
        }
    }
    None
}

// The first high or low water of the month behind the view's; none where the clock refuses that month.
fn turn_behind(view: &View, high: bool) -> Option<Next>
    requires { Made view.now.clock }
{
    let year = dates::year_behind(view.date.year, view.date.month);
    let month = dates::month_behind(view.date.month);
    let after = clock::set_date(view.clock, year, month);
    after.answer.ok()?;
    let last = calendar::month_minutes(year, month);
    let turns = monthturns::turns_of(after.clock, last, view.face.ground.strides).ok()?;
    first_turn(high, 0, true, turns.lent())
}

// The next high or low water behind a minute of the month that the clock has prepared, with its turns.
fn next_turn(view: &View, high: bool, minute: u32, turns: &Turns) -> Option<Next>
    requires { Made view.now.clock }
{
    let from = swings::turn_from(&turns.minutes, 0, turns.count, minute as u64 + 1);
    let next = first_turn(high, from, false, turns.lent());
    if next.is_some() {
        return next;
    }
    turn_behind(view, high)
}

// day YEAR MONTH DAY HH:MM: the next high and low water, and the day's curve.
pub fn day(rt: HostRuntime, view: &View, minute: u32) -> io::Result<()>
    requires { Made view.now.clock }
{
    let mut hourly = [0i64; 25];
    let start = dates::minute_of_month(view.date.day, 0);
    if let Err(refused) = clock::series(view.clock, start, 60, &mut hourly) {
        return view.say_day(rt, refused.refusal);
    }
    let minute = dates::minute_of_month(view.date.day, minute);
    let height = match clock::height(view.clock, minute) {
        Ok(height) => height,
        Err(refused) => return view.say_day(rt, refused.refusal),
    };
    let turns = match view.turns() {
        Ok(turns) => turns,
        Err(refused) => return view.say_turns(rt, refused.refusal),
    };
    let water = Water {
        minute,
        height,
        high: next_turn(view, true, minute, &turns),
        low: next_turn(view, false, minute, &turns),
    };
    let page = [0; SIZE];
    let end = daysheet::put_sheet(
        &rt,
        &page,
        0,
        view.face,
        view.date,
        water,
        &hourly,
        turns.lent(),
    )?;
    output::flush(&rt, &page, end)?;
    Ok(())
}
