// Number fields of a card: one reader for every I and F format and range.
#![tactic(auto)]

ghost use Rattle.std.specs.Prelude.{◌≡◌, ◌-◌, ◌≤◌, pos, IfOk};
ghost use Rattle.columns.specs.Bytes.{blank, behind};
ghost use Rattle.columns.specs.Columns.{columns};
ghost use Rattle.fields.specs.Number as number;
ghost use Rattle.fields.specs.Number.{signed, contents_of, ranged};
ghost use Rattle.fields.specs.inner.Kept.{kept_of, written_in};
ghost use Rattle.fields.specs.inner.Narrow.{narrow_gives};

mod numerals; // what stands behind the sign

use crate::numerals::{CAP, begins, fixed_size, whole_size};

// 01's I and F: a whole number, and one with a point and so many decimals at the most.
#[derive(Clone, Copy)]
pub enum Format {
    Whole,
    Fixed(usize),
}

// Why a field holds no number of its range.
#[derive(Clone, Copy)]
pub enum FieldError {
    Malformed,
    OutOfRange,
}

// What a field writes: perhaps a minus, and behind it a size, if it is well formed.
#[derive(Clone, Copy)]
struct Written {
    negative: bool,
    size: Option<u64>,
}

// A field behind its sign, without it.
fn size_of(field: &[u8], k: usize, end: usize, format: Format) -> Option<u64>
    ensures { result ≡ kept_of format (columns field.now k (end - k)) }
{
    match format {
        Format::Whole => whole_size(field, k, end),
        Format::Fixed(decimals) => fixed_size(field, k, end, decimals),
    }
}

// The field of `width` columns of the line from column `from` on.
fn written_in(line: &[u8], from: usize, width: usize, format: Format) -> Written
    ensures { result ≡ written_in format (behind blank (columns line.now from width)) }
{
    let field = columns::part(line, from, width);
    let start = columns::run_end(field, 0, width, b' ', b' ');
    if begins(field, start, width, b'-') {
        return Written {
            negative: true,
            size: size_of(field, start + 1, width, format),
        };
    }
    Written {
        negative: false,
        size: size_of(field, start, width, format),
    }
}

// A number in its range.
fn within(z: i64, low: i64, high: i64) -> Result<i64, FieldError>
    ensures { result ≡ ranged low high (number.numeric z) }
{
    if z < low || high < z {
        return Err(FieldError::OutOfRange);
    }
    Ok(z)
}

// A size with its sign, in its range.
fn ranged(negative: bool, size: u64, low: i64, high: i64) -> Result<i64, FieldError>
    ensures { result ≡ ranged low high (number.numeric (signed negative size)) }
{
    if negative {
        if size == 0 {
            return within(0, low, high);
        }
        if CAP <= size {
            return Err(FieldError::OutOfRange);
        }
        let less = (size - 1) as i64;
        return within(-1 - less, low, high);
    }
    if (i64::MAX as u64) < size {
        return Err(FieldError::OutOfRange);
    }
    within(size as i64, low, high)
}

// A size with its sign, in 32 bits if it is from 0 to `high`: narrowed in the step that compares it, and not from what `ranged` hands out.
fn narrowed(negative: bool, size: u64, high: u32) -> Result<u32, FieldError>
    ensures result_value { narrow_gives result ≡ ranged (pos 0) (pos high) (number.numeric (signed negative size)) }
    ensures narrow_within { IfOk result (λ n. n ≤ high) }
{
    if negative {
        if size == 0 {
            return Ok(0);
        }
        return Err(FieldError::OutOfRange);
    }
    if (high as u64) < size {
        return Err(FieldError::OutOfRange);
    }
    Ok(size as u32)
}

// The number in `width` columns of the line from column `from` on, if it is from `low` to `high`.
pub fn ranged_field(
    line: &[u8],
    from: usize,
    width: usize,
    format: Format,
    low: i64,
    high: i64,
) -> Result<i64, FieldError>
    ensures { result ≡ ranged low high (contents_of format (columns line.now from width)) }
{
    let written = written_in(line, from, width, format);
    // No `?`, no `ok_or`: `has-the-clock` of claim_runs cannot have std's code.
    match written.size {
        Some(size) => ranged(written.negative, size, low, high),
        None => Err(FieldError::Malformed),
    }
}

// The same number in 32 bits, if it is from 0 to `high`.
pub fn narrow_field(
    line: &[u8],
    from: usize,
    width: usize,
    format: Format,
    high: u32,
) -> Result<u32, FieldError>
    ensures result_value { narrow_gives result ≡ ranged (pos 0) (pos high) (contents_of format (columns line.now from width)) }
    ensures narrow_within { IfOk result (λ n. n ≤ high) }
{
    let written = written_in(line, from, width, format);
    // No `?`, no `ok_or`: `has-the-clock` of claim_runs cannot have std's code.
    match written.size {
        Some(size) => narrowed(written.negative, size, high),
        None => Err(FieldError::Malformed),
    }
}
