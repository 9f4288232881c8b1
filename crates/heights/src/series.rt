// A series of heights, from a prepared month's constituents: their angles are moved on from height to height. The table of cosines and the
// arrays are lent.
ghost use Rattle.std.specs.Prelude.{◌≡◌, ◌+◌, ◌*◌, ◌%◌, ◌≤◌, ◌<◌, ◌^◌, nat_abs, length};
ghost use Rattle.limits.specs.Limits.{most_minutes, most_records, most_step};
ghost use Rattle.angles.specs.Ticks.{turn};
ghost use Rattle.cosine.specs.Fixed.{IsTable};
ghost use Rattle.heights.specs.Height.{height_at};
ghost use Rattle.heights.specs.Series.{series_of};
ghost use Rattle.heights.specs.inner.Lent.{IsLent, constituents_lent};
ghost use Rattle.heights.specs.inner.Angles.{Angles, Advances, Below, MovedOn, HeightOf};

use crate::Lent;
use crate::minuteangle::{ADVANCE, LAP, angle_at};
use crate::shares::share_at;
use angles::TURN;
use cosine::ENTRIES;
use limits::RECORDS;

// The angles of the constituents at a minute.
fn angles_at(lent: Lent, minute: u64) -> [u64; RECORDS]
    requires { IsLent lent × (minute ≤ most_minutes) }
    ensures { Angles lent.entry.arguments.now lent.entry.lags.now lent.entry.frequencies.now lent.entry.count minute result }
{
    let mut angles = [0u64; RECORDS];
    for k in 0..lent.count {
        angles[k] = angle_at(lent.arguments[k], lent.lags[k], lent.frequencies[k], minute);
    }
    angles
}

// What a constituent advances in `step` minutes.
fn advance(frequency: u64, step: u64) -> u64
    requires { step ≤ most_step }
    ensures { result ≡ 1_314 * frequency * step % turn }
{
    frequency % LAP * step % LAP * ADVANCE
}

// What the first `count` constituents advance in `step` minutes.
fn advances(frequencies: &[u64; RECORDS], count: usize, step: u64) -> [u64; RECORDS]
    requires { (count ≤ most_records) × (step ≤ most_step) }
    ensures { Advances frequencies.now count step result }
{
    let mut ticks = [0u64; RECORDS];
    for k in 0..count {
        ticks[k] = advance(frequencies[k], step);
    }
    ticks
}

// An angle and an advance, both less than a turn, added.
fn sum_of(angle: u64, ticks: u64) -> u64
    requires { (angle < turn) × (ticks < turn) }
    ensures { result ≡ (angle + ticks) % turn }
{
    let sum = angle + ticks;
    if sum < TURN { sum } else { sum - TURN }
}

// Moves the first `count` angles on, each by its own advance.
fn move_on(angles: &mut [u64; RECORDS], ticks: &[u64; RECORDS], count: usize)
    requires { (length angles.old ≡ most_records) × ((count ≤ most_records) × (Below count angles.old × Below count ticks.now)) }
    ensures angles_len { length angles.new ≡ most_records }
    ensures moved_on { MovedOn count ticks.now angles.old angles.new }
{
    for k in 0..count {
        angles[k] = sum_of(angles[k], ticks[k]);
    }
}

// A lent row of weights, copied.
fn weights_of(row: &[i32]) -> [i32; RECORDS]
    requires { length row.now ≡ most_records }
    ensures { result ≡ row.now }
{
    let mut weights = [0i32; RECORDS];
    // (no `copy_from_slice`: it calls std's code, which `has-the-clock` of claim_runs can't have)
    for k in 0..RECORDS {
        weights[k] = row[k];
    }
    weights
}

// The height of the first `count` constituents at the minute that the angles are for.
fn height_of<'a>(
    table: &'a [u32; ENTRIES],
    angles: &'a [u64; RECORDS],
    ps: &'a [i32; RECORDS],
    qs: &'a [i32; RECORDS],
    count: usize,
) -> i64
    requires { IsTable table.now × (count ≤ most_records) }
    ensures height_of { HeightOf angles.now ps.now qs.now count result }
    ensures result_bound { nat_abs result ≤ 2 ^ 28 }
{
    let mut sum: i64 = 0;
    for k in 0..count {
        sum = sum + share_at(table, angles[k], ps[k], qs[k]);
    }
    (sum + 2_048) >> 12
}

// The heights at start, start + step, start + 2 × step and so on, one for each lent place.
pub fn series(lent: Lent, start: u64, step: u64, out: &mut [i64])
    requires lent { IsLent lent }
    requires start_bound { (start ≤ most_minutes) × (step ≤ most_step) }
    ensures { out.new ≡ series_of (height_at (constituents_lent lent.entry)) start step (length out.old) }
{
    let mut angles = angles_at(lent, start);
    let ticks = advances(lent.frequencies, lent.count, step);
    let ps = weights_of(lent.ps);
    let qs = weights_of(lent.qs);
    for height in out.iter_mut() {
        *height = height_of(lent.table, &angles, &ps, &qs, lent.count);
        move_on(&mut angles, &ticks, lent.count);
    }
}
