// Pairs X, Y multiplied, with refusal 11's size asked after each multiplication.
ghost use Rattle.std.specs.Prelude.{◌≡◌, ◌≤◌, ◌^◌, nat_abs, ◌+ℤ◌, ◌-ℤ◌, ◌*ℤ◌};
ghost use Rattle.angles.specs.Floor.{floor_div};
ghost use Rattle.month_satellites.specs.inner.Ranges.{sum_most, Sized};
ghost use Rattle.month_satellites.specs.inner.View.{pair_of};
ghost use Rattle.month_pairs.specs.Pairs.{checked, times_pair, turned, times_often, times_main};
ghost use Rattle.month_pairs.specs.inner.Ranges.{pair_most, Small};
ghost use Rattle.month_pairs.specs.inner.Corrected.{corrected_of};

use angles::{floor_div, size};
use month_satellites::satellites::Pair;

// A pair, or none where X or Y is too large, by refusal 11.
pub fn check(p: Pair) -> Option<Pair>
    ensures result_value { corrected_of result ≡ checked (pair_of p) }
    ensures small { Small result }
{
    if 4_194_304 < size(p.x) {
        return None;
    }
    if 4_194_304 < size(p.y) {
        return None;
    }
    Some(p)
}

// The new X of a shallow multiplication, floor((X·x - Y·y)/2^20).
fn new_x(a: i64, b: i64, x: i64, y: i64) -> i64
    requires { (nat_abs a ≤ pair_most) × (nat_abs b ≤ pair_most) × (nat_abs x ≤ pair_most) × (nat_abs y ≤ pair_most) }
    ensures value { result ≡ floor_div (a *ℤ x -ℤ b *ℤ y) (2 ^ 20) }
    ensures result_bound { nat_abs result ≤ sum_most }
{
    floor_div(a * x - b * y, 1_048_576)
}

// The new Y of a shallow multiplication, floor((X·y + Y·x)/2^20).
fn new_y(a: i64, b: i64, x: i64, y: i64) -> i64
    requires { (nat_abs a ≤ pair_most) × (nat_abs b ≤ pair_most) × (nat_abs x ≤ pair_most) × (nat_abs y ≤ pair_most) }
    ensures value { result ≡ floor_div (a *ℤ y +ℤ b *ℤ x) (2 ^ 20) }
    ensures result_bound { nat_abs result ≤ sum_most }
{
    floor_div(a * y + b * x, 1_048_576)
}

// One shallow multiplication, both from old X and Y.
fn multiplied(p: Pair, by: Pair) -> Pair
    requires sized { Sized pair_most p }
    requires sized_2 { Sized pair_most by }
    ensures result_value { pair_of result ≡ times_pair (pair_of p) (pair_of by) }
    ensures sized_3 { Sized sum_most result }
{
    let x = new_x(p.x, p.y, by.x, by.y);
    let y = new_y(p.x, p.y, by.x, by.y);
    Pair { x, y }
}

// A part's pair, with y negated for a negative coefficient.
fn turn(coefficient: i8, p: Pair) -> Pair
    requires { Sized pair_most p }
    ensures result_value { pair_of result ≡ turned coefficient (pair_of p) }
    ensures sized { Sized pair_most result }
{
    if coefficient < 0 {
        return Pair { x: p.x, y: 0 - p.y };
    }
    p
}

// A pair multiplied n times by another.
fn times_often(start: Pair, by: Pair, n: u64) -> Option<Pair>
    requires sized { Sized pair_most start }
    requires sized_2 { Sized pair_most by }
    ensures result_value { corrected_of result ≡ times_often n (pair_of start) (pair_of by) }
    ensures small { Small result }
{
    let mut p = start;
    for _ in 0..n {
        // (no `?`: it calls std's code, which `has-the-clock` of claim_runs can't have)
        let Some(q) = check(multiplied(p, by)) else {
            return None;
        };
        p = q;
    }
    Some(p)
}

// A pair multiplied by a part's, as often as the coefficient's size.
pub fn times_part(p: Pair, main: Option<Pair>, coefficient: i8) -> Option<Pair>
    requires sized { Sized pair_most p }
    requires small { Small main }
    ensures result_value { corrected_of result ≡ times_main (pair_of p) (corrected_of main) coefficient }
    ensures small_2 { Small result }
{
    // (no `?`: it calls std's code, which `has-the-clock` of claim_runs can't have)
    match main {
        Some(q) => times_often(p, turn(coefficient, q), size(coefficient as i64)),
        None => None,
    }
}
