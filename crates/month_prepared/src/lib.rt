// What preparing a month hands to the heights: the weights, V, lag and frequency of each constituent.
#![tactic(auto)]

ghost use Rattle.std.specs.Prelude.{◌≡◌, [], min};
ghost use Rattle.limits.specs.Limits.{most_records};
ghost use Rattle.month_prepared.specs.inner.View.{constituents_of};

pub mod months; // months that follow one another

use limits::RECORDS;

// A station's constituents in a prepared month: V in ticks, phase lag in hundredths of a degree, frequency in 10^-10 cycle an hour,
// weights P and Q, the first `count` places of each.
#[derive(Clone, Copy)]
pub struct Month {
    pub count: usize,
    pub arguments: [u64; RECORDS],
    pub lags: [u16; RECORDS],
    pub frequencies: [u64; RECORDS],
    pub ps: [i32; RECORDS],
    pub qs: [i32; RECORDS],
}

// A month with no constituents.
pub fn no_constituents() -> Month
    ensures { constituents_of result ≡ [] }
{
    Month {
        count: 0,
        arguments: [0; RECORDS],
        lags: [0; RECORDS],
        frequencies: [0; RECORDS],
        ps: [0; RECORDS],
        qs: [0; RECORDS],
    }
}

// How many constituents a month with this count holds.
// (No `min`: `has-the-clock` of claim_runs cannot have std's code; and a call of an own `min` of two numbers would be no plainer than this line.)
pub fn held(count: usize) -> usize
    ensures { result ≡ min count most_records }
{
    if count < RECORDS { count } else { RECORDS }
}
