// Whole numbers of ticks: division that rounds down, and the remainder modulo a turn.
#![tactic(auto)]

ghost use Rattle.std.specs.Prelude.{◌≡◌, ◌<◌, ◌^◌, nat_abs};
ghost use Rattle.std.specs.Int.Signed.{mag};
ghost use Rattle.angles.specs.Ticks.{turn};
ghost use Rattle.angles.specs.Floor.{floor_div, mod_turn};

// Ticks in a turn, and in 10^-10 cycle, 0.01 cycle, 0.01 degree and an arc minute.
pub const TURN: u64 = 788_400_000_000_000;

pub const TEN_BILLIONTH: u64 = 78_840;

pub const CENTICYCLE: u64 = 7_884_000_000_000;

pub const CENTIDEGREE: u64 = 21_900_000_000;

pub const ARC_MINUTE: u64 = 36_500_000_000;

// How far a lies from 0, or from -1 where it is negative. (`unsigned_abs`, `div_euclid` and `rem_euclid` call std's code, which `has-the-clock` of
// claim_runs can't have: so `size`, `floor_div` and `mod_turn` are written by this.)
fn distance(a: i64) -> u64
    ensures value { result ≡ mag a }
    ensures upper_bound { result < 2 ^ 63 }
{
    if a < 0 {
        return (-1 - a) as u64;
    }
    a as u64
}

// The size of a.
pub fn size(a: i64) -> u64
    ensures { result ≡ nat_abs a }
{
    let m = distance(a);
    if a < 0 {
        return m + 1;
    }
    m
}

// floor(a / n), for any a and any n but 0.
pub fn floor_div(a: i64, n: u64) -> i64
    requires { 0 < n }
    ensures { result ≡ floor_div a n }
{
    let m = distance(a) / n;
    if a < 0 {
        return -1 - m as i64;
    }
    m as i64
}

// The angle of a ticks, from 0 to T - 1.
pub fn mod_turn(a: i64) -> u64
    ensures value { result ≡ mod_turn a }
    ensures upper_bound { result < turn }
{
    let m = distance(a) % TURN;
    if a < 0 {
        return TURN - 1 - m;
    }
    m
}
