// The latitude factors G.
ghost use Rattle.std.specs.Prelude.{◌≡◌, ◌≤◌, ◌^◌, pos, nat_abs};
ghost use Rattle.cosine.specs.Fixed.{IsTable};
ghost use Rattle.month_satellites.specs.Latitude.{latitude_size, s20, diurnal_north, semidiurnal_north, by_side, factors_at};
ghost use Rattle.month_satellites.specs.inner.Factors.{factor_most, IsS20, AreFactors, factors_of};

use angles::{ARC_MINUTE, floor_div};
use cosine::{ENTRIES, wave};
use limits::LATITUDE;

// Both factors of a latitude, in units of 2^-20.
#[derive(Clone, Copy)]
pub struct Factors {
    pub diurnal: i64,
    pub semidiurnal: i64,
}

// The latitude's size in minutes.
fn minutes(latitude: i32) -> u64
    ensures { result ≡ latitude_size latitude }
{
    let m = angles::size(latitude as i64);
    if m < 300 {
        return 300;
    }
    if (LATITUDE as u64) < m {
        return LATITUDE as u64;
    }
    m
}

// The diurnal factor in the north, from S20.
fn diurnal_north(s: u64) -> i64
    requires { IsS20 s }
    ensures value { result ≡ diurnal_north (pos s) }
    ensures result_bound { nat_abs result ≤ factor_most }
{
    let square = 5 * (s * s);
    let rest = 1_099_511_627_776 - square as i64;
    floor_div(36_309 * rest, 100_000 * s)
}

// The semidiurnal factor in the north, from S20.
fn semidiurnal_north(s: u64) -> i64
    requires { IsS20 s }
    ensures value { result ≡ semidiurnal_north (pos s) }
    ensures result_bound { nat_abs result ≤ factor_most }
{
    floor_div((259_808 * s) as i64, 100_000)
}

// A factor with the sign of the latitude's side.
fn by_side(latitude: i32, g: i64) -> i64
    requires { nat_abs g ≤ factor_most }
    ensures value { result ≡ by_side latitude g }
    ensures result_bound { nat_abs result ≤ factor_most }
{
    if latitude < 0 {
        return 0 - g;
    }
    g
}

// S20 of a latitude.
fn s20_of(cosines: &[u32; ENTRIES], latitude: i32) -> u64
    requires { IsTable cosines.now }
    ensures result_value { pos result ≡ s20 latitude }
    ensures s20 { IsS20 result }
{
    let w = wave(cosines, minutes(latitude) * ARC_MINUTE);
    angles::size(floor_div(w.sine, 1_024))
}

// The diurnal and the semidiurnal factor of a latitude in signed minutes.
pub fn latitude_factors(cosines: &[u32; ENTRIES], latitude: i32) -> Factors
    requires { IsTable cosines.now }
    ensures result_value { factors_of result ≡ factors_at latitude }
    ensures are_factors { AreFactors result }
{
    let s = s20_of(cosines, latitude);
    let diurnal = by_side(latitude, diurnal_north(s));
    let semidiurnal = by_side(latitude, semidiurnal_north(s));
    Factors {
        diurnal,
        semidiurnal,
    }
}
