// Bisection: a bracket in which the slope changes sense is halved to the turn in it.
ghost use Rattle.std.specs.Prelude.{◌≡◌, cond, ◌+◌, ◌<◌, ◌^◌, ltb, nat_abs};
ghost use Rattle.month_prepared.specs.inner.Rows.{last_of};
ghost use Rattle.turns.specs.inner.Lists.{Rows, slopes_in};
ghost use Rattle.turns.specs.inner.Bisection.{BracketPre, TurnedPost};

use crate::sense::differs;
use crate::slopes::slope;
use heights::months::LentMonths;

// A turn's minute; the later of the two ends that hold the change, and the slope there.
#[derive(Clone, Copy)]
pub struct Turned {
    pub turn: u64,
    pub later: u64,
    pub slope: i64,
}

// A bracket: its start, its length, and the slopes at its two ends.
#[derive(Clone, Copy)]
pub struct Bracket {
    pub start: u64,
    pub length: u64,
    pub early: i64,
    pub late: i64,
}

// The turn between two ends one minute apart: the end with the smaller slope size, the earlier if equal.
fn turn_between(minute: u64, early: i64, late: i64) -> Turned
    requires { minute < 2 ^ 32 }
    ensures turn_value { result.turn ≡ cond (ltb (nat_abs late) (nat_abs early)) (minute + 1) minute }
    ensures later_value { (result.later ≡ minute + 1) × (result.slope ≡ late) }
{
    let later = minute + 1;
    if angles::size(late) < angles::size(early) {
        return Turned {
            turn: later,
            later: later,
            slope: late,
        };
    }
    Turned {
        turn: minute,
        later: later,
        slope: late,
    }
}

// Halves a bracket until its ends are one minute apart, and gives the turn between them.
pub fn bisect(lent: LentMonths, bracket: Bracket) -> Turned
    requires rows { Rows lent }
    requires bracket_pre { BracketPre (slopes_in lent) (last_of lent.months) bracket }
    ensures { TurnedPost (slopes_in lent.entry) bracket.start bracket.length result }
{
    let start = bracket.start;
    let length = bracket.length;
    let early = bracket.early;
    let late = bracket.late;
    if length <= 1 {
        return turn_between(start, early, late);
    }
    let half = length / 2;
    let cut = start + half;
    let middle = slope(lent, cut);
    if differs(early, middle) {
        let first = Bracket {
            start: start,
            length: half,
            early: early,
            late: middle,
        };
        return bisect(lent, first);
    }
    let second = Bracket {
        start: cut,
        length: length - half,
        early: middle,
        late: late,
    };
    bisect(lent, second)
}
