// Walking down the lines of the file, and how a card begins that may end its part. A position is the byte where a line starts.
ghost use Rattle.std.specs.Prelude.{◌≡◌, ◌-◌, ◌≤◌, ◌<◌, length, drop};
ghost use Rattle.columns.specs.Lines.{first_line};
ghost use Rattle.card.specs.Card as card;
ghost use Rattle.card.specs.inner.Lines.{NextLine, opening_gives};

use crate::faults;
use crate::faults::{Fault, Trouble, What};

// The line that starts at a byte of the file.
pub fn line_at(file: &[u8], at: usize) -> &[u8]
    requires { at ≤ length file.now }
    ensures { result.now ≡ first_line (drop at file.now) }
{
    columns::first_line(&file[at..])
}

// Where the line after it starts.
pub fn next_line(file: &[u8], at: usize) -> usize
    requires { at < length file.now }
    ensures { NextLine file.now at result }
{
    file.len() - columns::rest_lines(&file[at..]).len()
}

// Where the line after it starts, its own length being known.
pub fn after_line(file: &[u8], at: usize, width: usize) -> usize
    requires { (at < length file.now) × (width ≡ length (first_line (drop at file.now))) }
    ensures { NextLine file.now at result }
{
    let end = at + width;
    if end < file.len() {
        return end + 1;
    }
    end
}

// Where the reader stands behind a part: the byte and the line that come next.
#[derive(Clone, Copy)]
pub struct Reached {
    pub at: usize,
    pub line: usize,
}

// What is wrong in a part, and on which line.
#[derive(Clone, Copy)]
pub struct Misread {
    pub fault: Fault,
    pub line: usize,
}

// Whether a card ends its part, or has fields to read.
#[derive(Clone, Copy)]
pub enum Opening {
    Ends,
    Fields,
}

// How the card on the line begins, after `before` cards of `most`; one more is `excess`.
pub fn begins(line: &[u8], before: usize, most: usize, excess: Trouble) -> Result<Opening, Fault>
    ensures { opening_gives result ≡ card.opening most excess before line.now }
{
    if columns::line_good(line) {
        if columns::is_blank(line) {
            return Ok(Opening::Ends);
        }
        if most <= before {
            return Err(faults::only(What::Card, excess));
        }
        return Ok(Opening::Fields);
    }
    Err(faults::bad_line(line))
}
