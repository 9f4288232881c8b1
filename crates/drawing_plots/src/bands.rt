// The band of a year: each day from its lowest to its highest water, of hourly heights and of turns.
ghost use Rattle.std.specs.Prelude.{◌≡◌, take, drop};
ghost use Rattle.drawing_plots.specs.Bands.{DayBand};

use crate::scale;
use crate::scale::Extent;

// The heights from one on, so many or as many as there are.
pub fn part(heights: &[i64], from: usize, count: usize) -> &[i64]
    ensures { result.now ≡ take count (drop from heights.now) }
{
    if heights.len() <= from {
        return &heights[..0];
    }
    if heights.len() - from < count {
        return &heights[from..];
    }
    &heights[from..from + count]
}

// The extent of a day of the year, from 0: of the heights at its hours, both midnights among them, and of its turns from one to before another.
pub fn day_extent<'a>(
    day: u16,
    hourly: &'a [i64],
    heights: &'a [i64],
    from: usize,
    to: usize,
) -> Extent
    ensures { DayBand day hourly.now heights.now from to result }
{
    let hours = part(hourly, day as usize * 24, 25);
    let turns = part(heights, from, to.saturating_sub(from));
    scale::extended(scale::extended(scale::no_heights(), hours), turns)
}
