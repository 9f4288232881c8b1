// From heights and minutes to places on a drawing, in whole numbers.
//
// A drawing counts heights from 100,000 metres below the station's zero, so that every height is a natural number. Every function here is total,
// and every place that it gives lies on the drawing.
ghost use Rattle.std.specs.Prelude.{◌≡◌, ◌+◌, ◌-◌, ◌*◌, ◌≤◌, ◌<◌, min, max, leb};
ghost use Rattle.drawing_plots.specs.Heights.{raised, least_of, most_of};
ghost use Rattle.drawing_plots.specs.Lines.{line_below, line_above, fits, round_step, ScalePost};
ghost use Rattle.drawing_plots.specs.Places.{share, across_of, down_of};
ghost use Rattle.drawing_plots.specs.Lanes.{placed_of};

// Where the station's zero stands among raised heights, in tenths of a millimetre.
pub const ZERO: u32 = 1_000_000_000;

// Round steps: 1, 2 and 5 times a power of ten, from a centimetre to 100,000 metres.
const ROUND: [u32; 22] = [
    100,
    200,
    500,
    1_000,
    2_000,
    5_000,
    10_000,
    20_000,
    50_000,
    100_000,
    200_000,
    500_000,
    1_000_000,
    2_000_000,
    5_000_000,
    10_000_000,
    20_000_000,
    50_000_000,
    100_000_000,
    200_000_000,
    500_000_000,
    1_000_000_000,
];

// The lowest and the highest of some raised heights.
#[derive(Clone, Copy)]
pub struct Extent {
    pub low: u32,
    pub high: u32,
}

// The lines of a height axis: raised heights from the lowest line to the highest, a round step apart.
#[derive(Clone, Copy)]
pub struct Scale {
    pub low: u64,
    pub high: u64,
    pub step: u32,
}

// A part of the drawing, in units of the drawing: its minutes go across it from its left, raised heights up it from its foot, where its
// lowest line is; its lines are a step apart. With the size of its text, and the first and the last minute of the month that belong to it.
#[derive(Clone, Copy)]
pub struct Plot {
    pub left: u16,
    pub width: u16,
    pub top: u16,
    pub depth: u16,
    pub minutes: u16,
    pub low: u64,
    pub span: u64,
    pub step: u32,
    pub text: u16,
    pub first: u32,
    pub last: u32,
}

// From where on the two lanes for labels are free.
#[derive(Clone, Copy)]
pub struct Lanes {
    pub first: u64,
    pub second: u64,
}

// A lane: the one near the plot, or the one beyond it.
#[derive(Clone, Copy, PartialEq, Eq)]
pub enum Lane {
    Near,
    Far,
}

// The lane that a label got, or none; and the lanes after it.
#[derive(Clone, Copy)]
pub struct Placed {
    pub lane: Option<Lane>,
    pub lanes: Lanes,
}

// The room between two lines of a height axis.
#[derive(Clone, Copy)]
struct Step {
    size: u32,
    ghost some: { 0 < size },
}

// A height, counted from 100,000 metres below zero. One that is farther than that from zero is drawn at that distance.
pub fn raised(height: i64) -> u32
    ensures is { result ≡ raised height }
    ensures small { result ≤ 2_000_000_000 }
{
    let size = angles::size(height).min(ZERO as u64) as u32;
    if height < 0 { ZERO - size } else { ZERO + size }
}

// No heights yet: any height is lower than its low and higher than its high.
pub fn no_heights() -> Extent
    ensures { (result.low ≡ 2_000_000_000) × (result.high ≡ 0) }
{
    Extent {
        low: 2_000_000_000,
        high: 0,
    }
}

// An extent widened to one more raised height.
fn widened(extent: Extent, height: u32) -> Extent
    ensures { (result.low ≡ min extent.low height) × (result.high ≡ max extent.high height) }
{
    Extent {
        low: extent.low.min(height),
        high: extent.high.max(height),
    }
}

// An extent widened to the heights of a series, or of turns.
pub fn extended(extent: Extent, heights: &[i64]) -> Extent
    ensures { (result.low ≡ least_of extent.low heights.now) × (result.high ≡ most_of extent.high heights.now) }
{
    let mut all = extent;
    for height in heights {
        all = widened(all, raised(*height));
    }
    all
}

impl Step {
    // The last line of an axis that is not above a height.
    fn line_below(self, height: u32) -> u64
        ensures is { result ≡ line_below height self.size }
        ensures holds { result ≤ height }
    {
        height as u64 / self.size as u64 * self.size as u64
    }

    // The first line that is not below a height.
    fn line_above(self, height: u32) -> u64
        ensures is { result ≡ line_above height self.size }
        ensures holds { height ≤ result }
        ensures small { result ≤ height + self.size }
    {
        (height as u64 + self.size as u64 - 1) / self.size as u64 * self.size as u64
    }

    // Whether at most so many steps hold an extent.
    fn fits(self, extent: Extent, most: u16) -> bool
        ensures { result ≡ fits extent most self.size }
    {
        self.line_above(extent.high) <= self.line_below(extent.low) + most as u64 * self.size as u64
    }
}

// The least round step of which at most so many hold an extent; the largest where none does.
fn round_step(extent: Extent, most: u16) -> Step
    ensures { result.size ≡ round_step extent most }
{
    for size in ROUND {
        let step = Step { size };
        if step.fits(extent, most) {
            return step;
        }
    }
    Step {
        size: 1_000_000_000,
    }
}

// The height axis of an extent, of at most so many steps, that holds its lowest and its highest height.
pub fn scale_of(extent: Extent, most: u16) -> Scale
    ensures { ScalePost extent most result }
{
    let step = round_step(extent, most);
    let low = step.line_below(extent.low);
    let above = step.line_above(extent.high);
    if low < above {
        return Scale {
            low,
            high: above,
            step: step.size,
        };
    }
    Scale {
        low,
        high: low + step.size as u64,
        step: step.size,
    }
}

// A number less another, and 0 where that is more.
pub fn beyond(number: u64, start: u64) -> u64
    ensures { result ≡ number - start }
{
    number.saturating_sub(start)
}

// A part of a whole as the same part of a length, rounded down; the length itself from the whole on.
pub fn share(part: u32, whole: u64, length: u16) -> u16
    ensures is { result ≡ share part whole length }
    ensures within { result ≤ length }
{
    if whole <= part as u64 {
        return length;
    }
    (part as u64 * length as u64 / whole) as u16
}

// Where a minute, counted from the plot's first, stands from the left of the drawing: within the plot's width.
pub fn across(plot: Plot, minute: u32) -> u32
    ensures is { result ≡ across_of plot minute }
    ensures within { (plot.left ≤ result) × (result ≤ plot.left + plot.width) }
{
    plot.left as u32 + share(minute, plot.minutes as u64, plot.width) as u32
}

// Where a raised height stands from the top of the drawing: within the plot's depth.
pub fn down(plot: Plot, height: u32) -> u32
    ensures is { result ≡ down_of plot height }
    ensures within { (plot.top ≤ result) × (result ≤ plot.top + plot.depth) }
{
    let part = beyond(height as u64, plot.low) as u32;
    plot.top as u32 + (plot.depth - share(part, plot.span, plot.depth)) as u32
}

// Both lanes free.
pub fn free_lanes() -> Lanes
    ensures { (result.first ≡ 0) × (result.second ≡ 0) }
{
    Lanes {
        first: 0,
        second: 0,
    }
}

// Whether a lane is free for a label that stands half its width to both sides of a place.
fn is_free(from: u64, x: u32, half: u32) -> bool
    ensures { result ≡ leb (from + half) x }
{
    if x < half {
        return false;
    }
    from <= (x - half) as u64
}

// The lane of the next label from left to right, so that no two labels of a lane touch.
pub fn place_label(lanes: Lanes, x: u32, half: u32) -> Placed
    ensures { result ≡ placed_of lanes x half }
{
    let end = x as u64 + half as u64;
    let first = lanes.first;
    let second = lanes.second;
    if is_free(first, x, half) {
        return Placed {
            lane: Some(Lane::Near),
            lanes: Lanes { first: end, second },
        };
    }
    if is_free(second, x, half) {
        return Placed {
            lane: Some(Lane::Far),
            lanes: Lanes { first, second: end },
        };
    }
    Placed { lane: None, lanes }
}
