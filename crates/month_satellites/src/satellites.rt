// A main constituent's pair, from its satellites.
ghost use Rattle.std.specs.Prelude.{◌≡◌, ◌≤◌, ◌<◌, ◌^◌, pos, nat_abs, ◌*ℤ◌};
ghost use Rattle.cosine.specs.Fixed.{one, IsTable, fixed_cosine, fixed_sine};
ghost use Rattle.table.specs.Table.{mark_of};
ghost use Rattle.table.specs.inner.View.{listed, satellite_of};
ghost use Rattle.month_satellites.specs.Satellites.{satellite_angle, plain_term, times_factor, marked_term, satellite_term, main_pair};
ghost use Rattle.month_satellites.specs.inner.Factors.{factor_most, AreFactors, factors_of};
ghost use Rattle.month_satellites.specs.inner.Ranges.{plain_most, term_most, sum_most, AreAngles, Sized};
ghost use Rattle.month_satellites.specs.inner.View.{longitudes_of, the_satellite, pair_of};

use crate::latitude::Factors;
use angles::{CENTICYCLE, floor_div, mod_turn};
use cosine::{ENTRIES, wave};
use table::{Table, at};

// The longitudes that satellites go by, in ticks: lunar perigee p, the node's negative N', solar perigee p'.
#[derive(Clone, Copy)]
pub struct Nodal {
    pub perigee: u64,
    pub node: u64,
    pub solar: u64,
}

// A satellite: its three differences and phase, its ratio, and its mark's byte.
#[derive(Clone, Copy)]
pub struct Satellite {
    pub first: i8,
    pub second: i8,
    pub third: i8,
    pub phase: i8,
    pub ratio: u32,
    pub mark: u32,
}

// A nodal correction X, Y, or what is added to one.
#[derive(Clone, Copy)]
pub struct Pair {
    pub x: i64,
    pub y: i64,
}

// A whole number of angles.
fn product(n: i8, angle: u64) -> i64
    requires { angle < 2 ^ 50 }
    ensures value { result ≡ n *ℤ pos angle }
    ensures result_bound { nat_abs result ≤ 2 ^ 57 }
{
    (n as i64) * (angle as i64)
}

// The angle of a satellite.
fn angle_of(s: Satellite, l: Nodal) -> u64
    requires { AreAngles l }
    ensures { result ≡ satellite_angle (longitudes_of l) (the_satellite s) }
{
    let a = product(s.first, l.perigee);
    let b = product(s.second, l.node);
    let c = product(s.third, l.solar);
    let d = product(s.phase, CENTICYCLE);
    mod_turn(a + (b + c) + d)
}

// A satellite's term from its ratio and its fixed cosine or sine, before its mark counts.
fn plain_term(ratio: u32, part: i64) -> i64
    requires { nat_abs part ≤ one }
    ensures value { result ≡ plain_term ratio part }
    ensures result_bound { nat_abs result ≤ plain_most }
{
    floor_div((ratio as i64) * part, 10_240_000)
}

// A term times a latitude factor.
fn times_factor(term: i64, g: i64) -> i64
    requires { (nat_abs term ≤ plain_most) × (nat_abs g ≤ factor_most) }
    ensures value { result ≡ times_factor term g }
    ensures result_bound { nat_abs result ≤ term_most }
{
    floor_div(term * g, 1_048_576)
}

// A term with the factor of its mark.
fn marked_term(mark: u32, term: i64, g: Factors) -> i64
    requires term_bound { nat_abs term ≤ plain_most }
    requires are_factors { AreFactors g }
    ensures value { result ≡ marked_term (factors_of g) (mark_of mark) term }
    ensures result_bound { nat_abs result ≤ term_most }
{
    if mark == b'1' as u32 {
        return times_factor(term, g.diurnal);
    }
    if mark == b'2' as u32 {
        return times_factor(term, g.semidiurnal);
    }
    term
}

// Satellite k of the table.
fn satellite_at(table: &Table, k: usize) -> Satellite
    requires { k < 2 ^ 32 }
    ensures { the_satellite result ≡ satellite_of table.now.satelliteangles table.now.satelliteratios k }
{
    let angles = &table.satelliteangles;
    let ratios = &table.satelliteratios;
    Satellite {
        first: *at(angles, 4 * k, &0),
        second: *at(angles, 4 * k + 1, &0),
        third: *at(angles, 4 * k + 2, &0),
        phase: *at(angles, 4 * k + 3, &0),
        ratio: *at(ratios, 2 * k, &0),
        mark: *at(ratios, 2 * k + 1, &0),
    }
}

// The cosine term and the sine term of a satellite.
fn terms_of(cosines: &[u32; ENTRIES], s: Satellite, g: Factors, l: Nodal) -> Pair
    requires table { IsTable cosines.now }
    requires are_factors { AreFactors g }
    requires are_angles { AreAngles l }
    ensures x_value { result.x ≡ satellite_term fixed_cosine (factors_of g) (longitudes_of l) (the_satellite s) }
    ensures y_value { result.y ≡ satellite_term fixed_sine (factors_of g) (longitudes_of l) (the_satellite s) }
    ensures sized { Sized term_most result }
{
    let w = wave(cosines, angle_of(s, l));
    let x = marked_term(s.mark, plain_term(s.ratio, w.cosine), g);
    let y = marked_term(s.mark, plain_term(s.ratio, w.sine), g);
    Pair { x, y }
}

// The sum over a main's satellites, not yet checked for size.
pub fn main_sum<'a>(
    cosines: &'a [u32; ENTRIES],
    table: &'a Table,
    first: u16,
    count: u16,
    g: Factors,
    l: Nodal,
) -> Pair
    requires cosines { IsTable cosines.now }
    requires are_factors { AreFactors g }
    requires are_angles { AreAngles l }
    ensures result_value { pair_of result ≡ main_pair (factors_of g) (longitudes_of l) (listed (satellite_of table.now.satelliteangles table.now.satelliteratios) first count) }
    ensures sized { Sized sum_most result }
{
    let start = first as usize;
    let end = start + count as usize;
    let mut x: i64 = 1_048_576;
    let mut y: i64 = 0;
    for k in start..end {
        let t = terms_of(cosines, satellite_at(table, k), g, l);
        x = x + t.x;
        y = y + t.y;
    }
    Pair { x, y }
}
