// The five longitudes on a day: moon, sun, lunar perigee, the negative of the ascending node, solar perigee.
ghost use Rattle.std.specs.Prelude.{◌≡◌, ◌<◌, ◌≤◌, ◌^◌, ◌/◌, ◌%◌, nat_abs, pos, ◌*ℤ◌, get_or};
ghost use Rattle.std.specs.Int.Signed.{rem_z};
ghost use Rattle.angles.specs.Ticks.{turn};
ghost use Rattle.month_arguments.specs.Longitudes.{longitude, longitudes_on};
ghost use Rattle.month_arguments.specs.inner.Longitudes.{longitudes_of};

use angles::{TEN_BILLIONTH, TURN, mod_turn};

// A cycle in 10^-10 cycle, and T / 216: card one counts modulo the first, days times card two modulo the second.
const CYCLE: u64 = TURN / TEN_BILLIONTH;

const SPAN: u64 = TURN / 216;

// The longitudes in ticks: the moon's, the sun's, the lunar perigee's, the negative of the ascending node's, the solar perigee's.
#[derive(Clone, Copy)]
pub struct Longitudes {
    pub moon: u64,
    pub sun: u64,
    pub perigee: u64,
    pub node: u64,
    pub solar: u64,
}

// Days times an increase, reduced modulo T / 216.
fn drift(days: i64, increase: u64) -> i64
    requires { nat_abs days ≤ 2 ^ 15 }
    ensures value { result ≡ rem_z (days *ℤ pos (increase % (turn / 216))) (pos (turn / 216)) }
    ensures result_bound { nat_abs result < turn / 216 }
{
    let rate = (increase % SPAN) as i64;
    days * rate % (SPAN as i64)
}

// Longitude k of five on a day counted from 1 January 1976, from the two longitude cards.
fn longitude_on<'a>(days: i64, cards: &'a [u64; 5], increases: &'a [u64; 5], k: usize) -> u64
    requires { (nat_abs days ≤ 2 ^ 15) × (k < 5) }
    ensures { result ≡ longitude days (get_or cards.now k 0) (get_or increases.now k 0) }
{
    let start = (TEN_BILLIONTH * (cards[k] % CYCLE)) as i64;
    mod_turn(start + 216 * drift(days, increases[k]))
}

// The five longitudes on a day counted from 1 January 1976, from the two longitude cards.
pub fn longitudes_on<'a>(days: i64, cards: &'a [u64; 5], increases: &'a [u64; 5]) -> Longitudes
    requires { nat_abs days ≤ 2 ^ 15 }
    ensures { longitudes_of result ≡ longitudes_on days cards.now increases.now }
{
    Longitudes {
        moon: longitude_on(days, cards, increases, 0),
        sun: longitude_on(days, cards, increases, 1),
        perigee: longitude_on(days, cards, increases, 2),
        node: longitude_on(days, cards, increases, 3),
        solar: longitude_on(days, cards, increases, 4),
    }
}
