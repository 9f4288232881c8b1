// The slope of the water at a minute of a prepared month, and of months that follow one another. The table of cosines and the arrays are lent.
ghost use Rattle.std.specs.Prelude.{◌≡◌, ◌*◌, ◌≤◌, ◌^◌, nat_abs};
ghost use Rattle.limits.specs.Limits.{most_frequency, most_minutes};
ghost use Rattle.cosine.specs.Fixed.{IsTable};
ghost use Rattle.turns.specs.Slope.{fall};
ghost use Rattle.month_prepared.specs.inner.Rows.{InRange, last_of};
ghost use Rattle.heights.specs.inner.Lent.{IsLent};
ghost use Rattle.turns.specs.inner.Lists.{Rows, slope_of, slopes_in};

use cosine::ENTRIES;
use heights::months::LentMonths;
use heights::{Lent, minuteangle, shares};
use month_prepared::months::owner;

// What a constituent of weights P and Q takes from the slope at an angle.
fn fall_at(table: &[u32; ENTRIES], angle: u64, p: i32, q: i32, frequency: u64) -> i64
    requires table { IsTable table.now }
    requires frequency_le_most_frequency { frequency ≤ most_frequency }
    ensures value { result ≡ fall p q frequency angle }
    ensures result_bound { nat_abs result ≤ 2 ^ 32 * 4_999_999 }
{
    let w = cosine::wave(table, angle);
    let whole = (shares::weigh(p, w.sine) + shares::weigh(q, w.cosine)) >> 30;
    whole * (frequency / 1_000) as i64
}

// The slope of the constituents at a minute of their month.
fn slope_in_month(lent: Lent, minute: u64) -> i64
    requires lent { IsLent lent × InRange lent.count lent.frequencies.now }
    requires minute_bound { minute ≤ most_minutes }
    ensures { result ≡ slope_of lent.entry minute }
{
    let mut falls: i64 = 0;
    for k in 0..lent.count {
        let frequency = lent.frequencies[k];
        let angle = minuteangle::angle_at(lent.arguments[k], lent.lags[k], frequency, minute);
        falls = falls + fall_at(lent.table, angle, lent.ps[k], lent.qs[k], frequency);
    }
    -falls
}

// The slope at a minute of the months: that of the month that owns it.
pub fn slope(lent: LentMonths, minute: u64) -> i64
    requires rows { Rows lent }
    requires minute_bound { minute ≤ last_of lent.months }
    ensures { result ≡ slopes_in lent.entry minute }
{
    let own = owner(lent.months, minute);
    slope_in_month(lent.month(own.month), own.minute)
}
