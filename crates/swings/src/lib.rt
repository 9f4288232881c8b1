// How far the water moves from turn to turn, and which turns stand on a day. Turns are lent as two rows, their minutes and their heights, with their
// count beside (not cut to it: what `turn_from`, `day_end` and `largest_swing` promise holds of any count).
#![tactic(auto)]

ghost use Rattle.std.specs.Prelude.{◌≡◌, ◌+◌, ◌-◌, ◌≤◌};
ghost use Rattle.swings.specs.Swings.{apart, swing, largest_swing, bar_length, is_high, turn_from, day_end};

pub mod months; // a year's turns by months

use drawing_plots::scale;

// How far two heights lie apart.
pub fn apart(a: i64, b: i64) -> u64
    ensures is { result ≡ apart a b }
    ensures small { result ≤ 2_000_000_000_000 }
{
    scale::raised(a).abs_diff(scale::raised(b)) as u64
}

// The rise or fall that ends at a turn; for the first turn the one that begins there.
fn swing(heights: &[i64], count: usize, i: usize) -> u64
    ensures is { result ≡ swing heights.now count i }
    ensures small { result ≤ 2_000_000_000_000 }
{
    if count < 2 {
        return 0;
    }
    if i < 1 {
        return apart(digits::height_at(heights, 0), digits::height_at(heights, 1));
    }
    apart(
        digits::height_at(heights, i - 1),
        digits::height_at(heights, i),
    )
}

// The largest swing of the turns from one to before another.
pub fn largest_swing(heights: &[i64], count: usize, from: usize, to: usize) -> u64
    ensures is { result ≡ largest_swing heights.now count from (to - from) }
    ensures small { result ≤ 2_000_000_000_000 }
{
    let mut most: u64 = 0;
    for i in from..to {
        most = most.max(swing(heights, count, i));
    }
    most
}

// The length of a swing's bar, in tenths of the largest, rounded.
pub fn bar_length(swing: u64, largest: u64) -> u64
    requires { (swing ≤ 2_000_000_000_000) × (largest ≤ 2_000_000_000_000) }
    ensures { result ≡ bar_length swing largest }
{
    if largest == 0 {
        return 0;
    }
    (20 * swing + largest) / (2 * largest)
}

// Whether a turn is a high water: they alternate.
pub fn is_high(first: bool, i: usize) -> bool
    ensures { result ≡ is_high first i }
{
    if i % 2 == 0 { first } else { !first }
}

// The first turn, from one on and before a count, that stands at a minute or behind it.
pub fn turn_from(minutes: &[u32], from: usize, count: usize, minute: u64) -> usize
    ensures { result ≡ turn_from minutes.now minute from (count - from) }
{
    for i in from..count {
        if minute <= digits::minute_at(minutes, i) as u64 {
            return i;
        }
    }
    from.max(count)
}

// Where the turns of a day end, from the turn on with which they begin. The last day has all that are left.
pub fn day_end(minutes: &[u32], from: usize, count: usize, day: u32, days: u32) -> usize
    ensures { result ≡ day_end minutes.now from count day days }
{
    if days <= day {
        return count;
    }
    turn_from(minutes, from, count, day as u64 * 1_440)
}
