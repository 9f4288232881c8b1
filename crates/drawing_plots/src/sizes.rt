// Sizes of a plot, in units of the drawing, of which ten make a pixel; they follow from the size of its text.
ghost use Rattle.std.specs.Prelude.{◌≡◌, ◌<◌};
ghost use Rattle.drawing_plots.specs.Sizes.{right_of, foot_of, margin_of, frame_top, frame_foot, frame_of, line_of, half_of};

use crate::scale::Plot;

// The frame around a plot and its labels: where it begins, its width and its depth.
#[derive(Clone, Copy)]
pub struct Frame {
    pub left: u64,
    pub top: u64,
    pub width: u64,
    pub depth: u64,
}

// The right end of a plot.
pub fn right(plot: Plot) -> u32
    ensures is { result ≡ right_of plot }
    ensures small { result < 131_072 }
{
    plot.left as u32 + plot.width as u32
}

// The foot of a plot.
pub fn foot(plot: Plot) -> u32
    ensures is { result ≡ foot_of plot }
    ensures small { result < 131_072 }
{
    plot.top as u32 + plot.depth as u32
}

// The room above and below a plot, for two lanes of labels.
fn margin(text: u16) -> u32
    ensures is { result ≡ margin_of text }
    ensures small { result < 393_216 }
{
    text as u32 * 5 + text as u32 / 2
}

// The top of the frame.
fn frame_top(plot: Plot) -> u32
    ensures is { result ≡ frame_top plot }
    ensures small { result < 65_536 }
{
    (plot.top as u32).saturating_sub(margin(plot.text))
}

// The foot of the frame.
pub fn frame_foot(plot: Plot) -> u32
    ensures is { result ≡ frame_foot plot }
    ensures small { result < 524_288 }
{
    foot(plot) + margin(plot.text)
}

// The frame.
pub fn frame_of(plot: Plot) -> Frame
    ensures { result ≡ frame_of plot }
{
    let top = frame_top(plot) as u64;
    Frame {
        left: plot.left as u64,
        top,
        width: plot.width as u64,
        depth: (frame_foot(plot) as u64).saturating_sub(top),
    }
}

// From the first line of a label to the second.
pub fn line(text: u16) -> u32
    ensures is { result ≡ line_of text }
    ensures small { result < 131_072 }
{
    text as u32 + text as u32 / 10
}

// Half the width that is kept for a label.
pub fn half(text: u16) -> u32
    ensures is { result ≡ half_of text }
    ensures small { result < 131_072 }
{
    text as u32 + text as u32 * 7 / 8
}
