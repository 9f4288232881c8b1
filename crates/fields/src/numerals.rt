// The digits of a number field behind its sign: the sizes of I and F fields.
ghost use Rattle.std.specs.Prelude.{◌≡◌, min, ◌+◌, ◌-◌, ◌*◌, ◌≤◌, ◌<◌, replicate};
ghost use Rattle.columns.specs.Columns.{columns};
ghost use Rattle.fields.specs.Numerals as number;
ghost use Rattle.fields.specs.Numerals.{whole_good, whole_size, fixed_good, fixed_size};
ghost use Rattle.fields.specs.inner.Cap.{cap, kept};

// 2^63 + 1: a larger size is kept as this one, for it is outside every range.
pub const CAP: u64 = (1 << 63) + 1;

// A byte less 48, or 0.
fn digit(b: u8) -> u64
    ensures value { result ≡ b - 48 }
    ensures upper_bound { result < 256 }
{
    if b < b'0' { 0 } else { (b - b'0') as u64 }
}

// The number with a digit more, capped.
fn push(size: u64, digit: u64) -> u64
    requires { digit < 256 }
    ensures { result ≡ min cap (10 * size + digit) }
{
    if 1_000_000_000_000_000_000 < size {
        return CAP;
    }
    let x = 10 * size + digit;
    // No `min`: `has-the-clock` of claim_runs cannot have std's code.
    if x < CAP { x } else { CAP }
}

// The number that the bytes in column k and the next write behind `before`, up to column `end`, capped.
fn numeral(field: &[u8], k: usize, end: usize, before: u64) -> u64
    requires { before ≤ cap }
    ensures { result ≡ min cap (number.numeral before (columns field.now k (end - k))) }
{
    let mut v = before;
    for i in k..end {
        v = push(v, digit(columns::column(field, i)));
    }
    v
}

// The number that n zeros write behind `before`, capped.
// (Not one with `numeral`: an iterator of digits for both would call std's code, which `has-the-clock` of claim_runs cannot have.)
fn zeros(before: u64, n: usize) -> u64
    requires { before ≤ cap }
    ensures { result ≡ min cap (number.numeral before (replicate n 48)) }
{
    let mut v = before;
    for _ in 0..n {
        v = push(v, 0);
    }
    v
}

// Whether the byte b stands in column k, before column `end`.
pub fn begins(field: &[u8], k: usize, end: usize, b: u8) -> bool
    ensures { result ≡ number.begins b (columns field.now k (end - k)) }
{
    if end <= k {
        return false;
    }
    columns::column(field, k) == b
}

// An I field behind its sign, from column k to column `end`.
pub fn whole_size(field: &[u8], k: usize, end: usize) -> Option<u64>
    ensures { result ≡ kept (whole_good (columns field.now k (end - k))) (whole_size (columns field.now k (end - k))) }
{
    let last = columns::run_end(field, k, end, b'0', b'9');
    if last <= k {
        return None;
    }
    if columns::all_among(field, last, end, b' ', b' ') {
        return Some(numeral(field, k, last, 0));
    }
    None
}

// The digits of an F field that is well formed: from column k to the point, and from there to column `stop`.
fn fixed_digits(field: &[u8], k: usize, point: usize, stop: usize, missing: usize) -> u64
    requires { point < stop }
    ensures { result ≡ min cap (number.numeral (number.numeral (number.numeral 0 (columns field.now k (point - k))) (columns field.now (point + 1) (stop - (point + 1)))) (replicate missing 48)) }
{
    let whole = numeral(field, k, point, 0);
    zeros(numeral(field, point + 1, stop, whole), missing)
}

// An F field behind its sign, from column k to column `end`.
pub fn fixed_size(field: &[u8], k: usize, end: usize, decimals: usize) -> Option<u64>
    ensures { result ≡ kept (fixed_good decimals (columns field.now k (end - k))) (fixed_size decimals (columns field.now k (end - k))) }
{
    let point = columns::run_end(field, k, end, b'0', b'9');
    if begins(field, point, end, b'.') {
        let stop = columns::run_end(field, point + 1, end, b'0', b'9');
        if stop <= k + 1 {
            return None;
        }
        let written = stop - (point + 1);
        if decimals < written {
            return None;
        }
        if columns::all_among(field, stop, end, b' ', b' ') {
            return Some(fixed_digits(field, k, point, stop, decimals - written));
        }
    }
    None
}
