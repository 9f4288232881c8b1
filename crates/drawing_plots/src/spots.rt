// Where things stand on a plot: the line of a height with its figure; a high or low water with its mark on the curve, and its label in a
// lane above or below the plot.
ghost use Rattle.std.specs.Prelude.{◌≡◌, ◌-◌, ◌<◌};
ghost use Rattle.drawing_plots.specs.Heights.{raised};
ghost use Rattle.drawing_plots.specs.Lanes.{placed_of};
ghost use Rattle.drawing_plots.specs.Places.{across_of, down_of};
ghost use Rattle.drawing_plots.specs.Sizes.{half_of};
ghost use Rattle.drawing_plots.specs.Spots.{level_of, kept_within, lane_room, label_down, leader_end, SpotPost, belongs_to};

use crate::scale;
use crate::scale::{Lane, Lanes, Placed, Plot};
use crate::sizes::{foot, half, line, right};

// Where a turn stands: its mark, the end of the line that leads to its label, and the label with its lane.
#[derive(Clone, Copy)]
pub struct Spot {
    pub x: u64,
    pub y: u64,
    pub leader: u64,
    pub middle: u64,
    pub down: u64,
    pub placed: Placed,
}

// Where the line of a height goes, from the left to the right and so far down, and where its figure ends and stands.
#[derive(Clone, Copy)]
pub struct Level {
    pub left: u64,
    pub right: u64,
    pub down: u64,
    pub end: u64,
    pub base: u64,
}

// Where the line of a raised height goes, and its figure at the left of it.
pub fn level_of(plot: Plot, height: u32) -> Level
    ensures { result ≡ level_of plot height }
{
    let down = scale::down(plot, height) as u64;
    Level {
        left: plot.left as u64,
        right: right(plot) as u64,
        down,
        end: plot.left.saturating_sub(60) as u64,
        base: down + plot.text as u64 / 3,
    }
}

// A place across, kept so far from the plot's sides that a label there is not cut.
fn kept_within(plot: Plot, x: u32) -> u32
    ensures { result ≡ kept_within plot x }
{
    let side = half(plot.text);
    let least = plot.left as u32 + side;
    let most = right(plot).saturating_sub(side);
    x.min(most).max(least)
}

// How far the first line of a label stands from the plot: two lines to a lane, the first lane nearest the plot.
fn lane_room(text: u16, lane: Option<Lane>) -> u32
    ensures is { result ≡ lane_room text lane }
    ensures small { result < 524_288 }
{
    let near = line(text) + text as u32 / 2;
    match lane {
        Some(Lane::Near) => near,
        _ => near + 2 * line(text),
    }
}

// Where the first line of a label stands from the top.
fn label_down(plot: Plot, high: bool, lane: Option<Lane>) -> u64
    ensures { result ≡ label_down plot high lane }
{
    let room = lane_room(plot.text, lane) as u64;
    if high {
        return (plot.top as u64).saturating_sub(room);
    }
    foot(plot) as u64 + room
}

// Where the line that leads from a mark to its label ends.
fn leader_end(plot: Plot, high: bool) -> u64
    ensures { result ≡ leader_end plot high }
{
    if high {
        return plot.top.saturating_sub(30) as u64;
    }
    foot(plot) as u64 + 30
}

// The lane of a label whose middle is given, after some labels to its left.
fn lane_of(plot: Plot, lanes: Lanes, middle: u32) -> Placed
    ensures { result ≡ placed_of lanes middle (half_of plot.text) }
{
    scale::place_label(lanes, middle, half(plot.text))
}

// Where a height stands from the top.
pub fn height_down(plot: Plot, height: i64) -> u32
    ensures { result ≡ down_of plot (raised height) }
{
    scale::down(plot, scale::raised(height))
}

// Where a minute of the month stands from the left.
fn minute_across(plot: Plot, minute: u32) -> u32
    ensures { result ≡ across_of plot (minute - plot.first) }
{
    scale::across(plot, minute.saturating_sub(plot.first))
}

// Where the turn of a minute of the month stands on a plot, after some labels to its left.
pub fn spot_of(plot: Plot, lanes: Lanes, minute: u32, height: i64, high: bool) -> Spot
    ensures { SpotPost plot lanes minute height high result }
{
    let x = minute_across(plot, minute);
    let middle = kept_within(plot, x);
    let placed = lane_of(plot, lanes, middle);
    Spot {
        x: x as u64,
        y: height_down(plot, height) as u64,
        leader: leader_end(plot, high),
        middle: middle as u64,
        down: label_down(plot, high, placed.lane),
        placed,
    }
}

// Whether a turn belongs to a plot.
pub fn belongs(plot: Plot, minute: u32) -> bool
    ensures { result ≡ belongs_to plot minute }
{
    plot.first <= minute && minute <= plot.last
}
