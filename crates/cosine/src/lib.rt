// The cosine and sine of an angle in ticks, in units of 2^-30, by a table that is made once and lent.
#![tactic(auto)]

ghost use Rattle.std.specs.Prelude.{◌≡◌, ◌+◌, ◌<◌, ◌≤◌, cond, pos, neg_ℤ, nat_abs};
ghost use Rattle.cosine.specs.Fraction.{in_quadrant};
ghost use Rattle.cosine.specs.Fixed.{one, entries, step, entry, line, fixed_cosine, fixed_sine, IsTable};

mod constants;

pub use constants::ENTRIES;
use constants::{COSINES, STEP, STEPS};

// A cosine and a sine, in units of 2^-30.
#[derive(Clone, Copy)]
pub struct CosineAndSine {
    pub cosine: i64,
    pub sine: i64,
}

// The table, to be made once and lent.
pub fn cosines() -> [u32; ENTRIES]
    ensures { IsTable result }
{
    COSINES
}

// The number on the line from entry i to the next, r ticks past entry i: entry i less the fall, rounded down.
fn on_line(table: &[u32; ENTRIES], i: usize, r: u64) -> u64
    requires table { IsTable table.now }
    requires i_bound { (i + 1 < entries) × (r ≤ step) }
    ensures result_value { pos result ≡ line step (entry step i) (entry step (i + 1)) r }
    ensures upper_bound { result ≤ one }
{
    let c = table[i] as u64;
    let d = table[i + 1] as u64;
    c - (c - d) * r / STEP
}

// One of two sizes, without a branch.
fn either(first: bool, a: u64, b: u64) -> u64
    ensures { result ≡ cond first a b }
{
    if first { a } else { b }
}

// A size with its sign.
fn with_sign(minus: bool, size: u64) -> i64
    requires { size ≤ one }
    ensures value { result ≡ cond minus (neg_ℤ (pos size)) (pos size) }
    ensures result_bound { nat_abs result ≤ one }
{
    if minus {
        return -(size as i64);
    }
    size as i64
}

// The cosine in quadrant q: of size near in an even quadrant and far in an odd one, negative in the two in the middle.
fn in_quadrant(q: u64, near: u64, far: u64) -> i64
    requires { (q < 4) × (near ≤ one) × (far ≤ one) }
    ensures value { result ≡ in_quadrant q (pos near) (pos far) }
    ensures result_bound { nat_abs result ≤ one }
{
    let size = either(q % 2 == 0, near, far);
    with_sign((q + 1) % 4 >= 2, size)
}

// The fixed cosine and the fixed sine of any number of ticks, by one division into quadrant, entry and remainder.
// The mirror image of the remainder in its quadrant, on the line before the mirrored entry, serves the odd quadrants.
pub fn wave(table: &[u32; ENTRIES], ticks: u64) -> CosineAndSine
    requires { IsTable table.now }
    ensures cosine_value { result.cosine ≡ fixed_cosine ticks }
    ensures sine_value { result.sine ≡ fixed_sine ticks }
    ensures cosine_bound { (nat_abs result.cosine ≤ one) × (nat_abs result.sine ≤ one) }
{
    let k = ticks / STEP;
    let r = ticks % STEP;
    let i = k % STEPS;
    let q = k / STEPS % 4;
    let near = on_line(table, i as usize, r);
    let far = on_line(table, (STEPS - 1 - i) as usize, STEP - r);
    CosineAndSine {
        cosine: in_quadrant(q, near, far),
        sine: in_quadrant((q + 3) % 4, near, far),
    }
}
