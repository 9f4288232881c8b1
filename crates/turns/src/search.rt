// The search for turns: strides in months that follow one another, and the turn in each in which the slope changes sense.
ghost use Rattle.std.specs.Prelude.{◌≡◌, ◌≤◌, false, MatchOption};
ghost use Rattle.month_prepared.specs.inner.Rows.{last_of};
ghost use Rattle.turns.specs.inner.Lists.{Rows, slopes_in};
ghost use Rattle.turns.specs.Search.{turns_of};
ghost use Rattle.turns.specs.inner.Search.{Reaches, NextPost, FoundPost};

use crate::bisection::{Bracket, bisect};
use crate::sense::{differs, rises};
use crate::slopes::slope;
use heights::months::LentMonths;

// How many turns were found, and whether the first is high.
// (No Option for `high`: it is false where there is no turn, as `first_high` of 01's words has it and as C gets it.)
#[derive(Clone, Copy)]
pub struct Summary {
    pub count: usize,
    pub high: bool,
}

// What is searched: the length of the strides, the first minute and the last.
#[derive(Clone, Copy)]
pub struct Reach {
    pub stride: u64,
    pub first: u64,
    pub last: u64,
}

// A turn, whether it is high, the minute from which the search resumes and the slope there.
#[derive(Clone, Copy)]
struct Next {
    turn: u64,
    high: bool,
    later: u64,
    slope: i64,
}

// Strides from a minute until the ends' slopes differ in sense, and finds the turn between them, or none.
fn next_turn(lent: LentMonths, reach: Reach, minute: u64, here: i64) -> Option<Next>
    requires rows { Rows lent }
    requires reaches { Reaches (last_of lent.months) reach × (minute ≤ reach.last) }
    requires here_value { here ≡ slopes_in lent minute }
    ensures { NextPost (slopes_in lent.entry) reach.stride reach.last minute result }
{
    let stride = reach.stride;
    let last = reach.last;
    let mut from = minute;
    let mut behind = here;
    // no `for`: `step_by` calls std's code, which `has-the-clock` of claim_runs can't have; and the strides count minutes, not places
    while from + stride <= last {
        let to = from + stride;
        let ahead = slope(lent, to);
        if differs(behind, ahead) {
            let bracket = Bracket {
                start: from,
                length: stride,
                early: behind,
                late: ahead,
            };
            let t = bisect(lent, bracket);
            return Some(Next {
                turn: t.turn,
                high: rises(behind),
                later: t.later,
                slope: t.slope,
            });
        }
        from = to;
        behind = ahead;
    }
    None
}

// Whether a turn is high, or false where there is none. (`is_some_and` calls std's code.)
fn is_high(turn: Option<Next>) -> bool
    ensures { MatchOption turn (result ≡ false) (λ n. result ≡ n.high) }
{
    match turn {
        Some(n) => n.high,
        None => false,
    }
}

// Finds every turn, counts them all, and keeps the minutes from the front of the lent places, as many as these hold.
pub fn find_turns(lent: LentMonths, reach: Reach, kept: &mut [u32]) -> Summary
    requires rows { Rows lent }
    requires reaches { Reaches (last_of lent.months) reach }
    ensures { FoundPost (turns_of (slopes_in lent.entry) reach.stride reach.first reach.last) kept.old kept.new result }
{
    let mut next = next_turn(lent, reach, reach.first, slope(lent, reach.first));
    let high = is_high(next);
    let mut found: usize = 0;
    // (No `for`: the next search begins where the last one ended; `successors` and `zip` are std's code, which `has-the-clock` of claim_runs cannot have.)
    while let Some(n) = next {
        if found < kept.len() {
            kept[found] = n.turn as u32;
        }
        found = found + 1;
        next = next_turn(lent, reach, n.later, n.slope);
    }
    Summary { count: found, high }
}
