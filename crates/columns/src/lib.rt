// The lines of a card file, the columns of a line, padded with blanks, and names as parts of a lent line.
#![tactic(auto)]

ghost use Rattle.std.specs.Prelude.{◌≡◌, ◌+◌, ◌-◌, ◌<◌, length, take, drop};
ghost use Rattle.columns.specs.Bytes.{among, every, leading};
ghost use Rattle.columns.specs.Lines.{first_line, rest_lines, line_good, blank_card};
ghost use Rattle.columns.specs.Columns as columns;
ghost use Rattle.columns.specs.Columns.{columns};

use limits::COLUMNS;

pub mod names; // names of five columns

// How many bytes stand in front of the first LF.
fn line_length(file: &[u8]) -> usize
    ensures { result ≡ length (first_line file.now) }
{
    for (k, b) in file.iter().enumerate() {
        if *b == b'\n' {
            return k;
        }
    }
    file.len()
}

// The part of the line from byte `from` on, `width` bytes or as many as it has.
pub fn part(line: &[u8], from: usize, width: usize) -> &[u8]
    ensures { result.now ≡ take width (drop from line.now) }
{
    if line.len() <= from {
        return &line[..0];
    }
    if line.len() - from < width {
        return &line[from..];
    }
    &line[from..from + width]
}

// The first line of the file, without its LF.
pub fn first_line(file: &[u8]) -> &[u8]
    ensures { result.now ≡ first_line file.now }
{
    part(file, 0, line_length(file))
}

// The file behind its first line.
pub fn rest_lines(file: &[u8]) -> &[u8]
    ensures { result.now ≡ rest_lines file.now }
{
    let k = line_length(file);
    if k < file.len() {
        return &file[k + 1..];
    }
    &file[..0]
}

// The byte in column k of the line; a blank past its end.
// (`byte` of `names` has 0 for the blank. One for both would take the missing byte as a parameter in each call, which says less than two names.)
pub fn column(line: &[u8], k: usize) -> u8
    ensures { result ≡ columns.column line.now k }
{
    if k < line.len() { line[k] } else { b' ' }
}

// The column where the bytes from `low` to `high` end that stand in column k and the next, before column `end`.
pub fn run_end(line: &[u8], k: usize, end: usize, low: u8, high: u8) -> usize
    ensures { result ≡ k + length (leading (among low high) (columns line.now k (end - k))) }
{
    for i in k..end {
        let b = column(line, i);
        if b < low || high < b {
            return i;
        }
    }
    // No `max`: `has-the-clock` of claim_runs cannot have std's code.
    if k < end { end } else { k }
}

// Whether the columns from k on, before column `end`, hold bytes from `low` to `high` only.
pub fn all_among(line: &[u8], k: usize, end: usize, low: u8, high: u8) -> bool
    ensures { result ≡ every (among low high) (columns line.now k (end - k)) }
{
    end <= run_end(line, k, end, low, high)
}

// Whether the line has at most 80 columns, of bytes 32 to 126.
pub fn line_good(line: &[u8]) -> bool
    ensures { result ≡ line_good line.now }
{
    if COLUMNS < line.len() {
        return false;
    }
    all_among(line, 0, line.len(), b' ', b'~')
}

// Whether the line is a blank card.
pub fn is_blank(line: &[u8]) -> bool
    ensures { result ≡ blank_card line.now }
{
    all_among(line, 0, line.len(), b' ', b' ')
}
