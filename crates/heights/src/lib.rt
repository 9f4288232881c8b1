// Heights of the water in a prepared month, and in months that follow one another: at a minute, in a series, and how far one may lie from the
// exact sum. The table of cosines and the arrays of the constituents are lent; a month's arguments and weights are a row of RECORDS places.
#![tactic(auto)]

ghost use Rattle.std.specs.Prelude.{◌≡◌, ◌≤◌, ◌^◌, nat_abs};
ghost use Rattle.limits.specs.Limits.{most_minutes};
ghost use Rattle.heights.specs.inner.Lent.{IsLent, constituents_lent};
ghost use Rattle.heights.specs.Height.{height_at};

pub mod minuteangle; // angles
pub mod shares; // shares
pub mod series; // series of a month
pub mod months; // across month ends
pub mod bookings; // at a list of minutes
pub mod distance; // nearness

use crate::minuteangle::angle_at;
use crate::shares::share_at;
use cosine::ENTRIES;
use limits::RECORDS;

// The constituents of a month, as they are lent with the table of cosines: V, lag, frequency, P and Q at the first `count` places of each.
#[derive(Clone, Copy)]
pub struct Lent<'a> {
    pub table: &'a [u32; ENTRIES],
    pub arguments: &'a [u64],
    pub lags: &'a [u16; RECORDS],
    pub frequencies: &'a [u64; RECORDS],
    pub ps: &'a [i32],
    pub qs: &'a [i32],
    pub count: usize,
}

// The height at a minute.
pub fn height(lent: Lent, minute: u64) -> i64
    requires lent { IsLent lent }
    requires minute_bound { minute ≤ most_minutes }
    ensures value { result ≡ height_at (constituents_lent lent.entry) minute }
    ensures result_bound { nat_abs result ≤ 2 ^ 28 }
{
    let mut sum: i64 = 0;
    for k in 0..lent.count {
        let angle = angle_at(lent.arguments[k], lent.lags[k], lent.frequencies[k], minute);
        sum = sum + share_at(lent.table, angle, lent.ps[k], lent.qs[k]);
    }
    (sum + 2_048) >> 12
}
