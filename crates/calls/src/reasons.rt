// Which question of 9 turns a series down, so that a program can say it.
ghost use Rattle.std.specs.Prelude.{◌≡◌};
ghost use Rattle.calls.specs.Reasons.{series_reason};

use limits::STEP;

// The questions in the order in which they are asked: the start is past the month's last minute, the step out of range, the last height past
// the month's last minute.
#[derive(Clone, Copy, PartialEq, Eq)]
pub enum Reason {
    Start,
    Step,
    End,
}

// The question that turns down a series of so many heights, in a month with this last minute; none where all is within.
pub fn series_reason(last: u64, start: u64, step: u64, places: usize) -> Option<Reason>
    ensures { result ≡ series_reason last start step places }
{
    if last < start {
        return Some(Reason::Start);
    }
    if step < 1 {
        return Some(Reason::Step);
    }
    if STEP < step {
        return Some(Reason::Step);
    }
    if places == 0 {
        return None;
    }
    if (last - start) / step < places as u64 - 1 {
        return Some(Reason::End);
    }
    None
}
