// The argument V of a main and of a shallow-water constituent, in ticks.
ghost use Rattle.std.specs.Prelude.{◌≡◌, ◌<◌, ◌≤◌, ◌^◌, ◌%◌, nat_abs, pos, ◌+ℤ◌, ◌*ℤ◌, get_or};
ghost use Rattle.angles.specs.Ticks.{turn};
ghost use Rattle.angles.specs.Floor.{mod_turn};
ghost use Rattle.table.specs.inner.View.{integers, shallow_of};
ghost use Rattle.month_arguments.specs.inner.Longitudes.{longitudes_of};
ghost use Rattle.month_arguments.specs.Arguments.{lunar_time, argument_from_parts};
ghost use Rattle.month_arguments.specs.inner.Rows.{row_argument, arguments_in};

use crate::KEPT;
use crate::astronomy::Longitudes;
use angles::{CENTICYCLE, TURN, mod_turn, size};
use limits::MAINS;
use table::entries::entry_at;
use table::{MAIN_ANGLES, Table};

// An angle, below a turn.
fn below(angle: u64) -> u64
    ensures { result ≡ angle % turn }
{
    // (No `min`: the `if` spares the division where the angle is below a turn already.)
    if angle < TURN { angle } else { angle % TURN }
}

// A whole number of times an angle, which is reduced first.
fn multiple(number: i8, angle: u64) -> i64
    ensures value { result ≡ number *ℤ pos (angle % turn) }
    ensures result_bound { nat_abs result ≤ 2 ^ 57 }
{
    (number as i64) * (below(angle) as i64)
}

// An angle as often as a number of a main's row says.
fn term(angles: &[i8; MAIN_ANGLES], row: usize, column: usize, angle: u64) -> i64
    ensures value { result ≡ get_or (integers 7 angles.now row) column (pos 0) *ℤ pos (angle % turn) }
    ensures result_bound { nat_abs result ≤ 2 ^ 57 }
{
    multiple(*entry_at(angles, 7, row, column, &0), angle)
}

// Lunar time at midnight.
fn lunar_time(sun: u64, moon: u64) -> u64
    ensures { result ≡ mod_turn (lunar_time sun moon) }
{
    mod_turn(multiple(1, sun) + multiple(-1, moon))
}

// V of the main in a row of the table: its terms added up, and reduced once.
pub fn main_argument(angles: &[i8; MAIN_ANGLES], row: usize, l: Longitudes) -> u64
    ensures { result ≡ row_argument (longitudes_of l) angles.now row }
{
    let tau = term(angles, row, 0, lunar_time(l.sun, l.moon));
    let s = term(angles, row, 1, l.moon);
    let h = term(angles, row, 2, l.sun);
    let p = term(angles, row, 3, l.perigee);
    let n = term(angles, row, 4, l.node);
    let q = term(angles, row, 5, l.solar);
    let phase = term(angles, row, 6, CENTICYCLE);
    mod_turn(tau + s + h + p + n + q + phase)
}

// An angle, and a whole number of times another, modulo T.
fn advanced(angle: u64, number: i8, by: u64) -> u64
    ensures { result ≡ mod_turn (pos angle +ℤ number *ℤ pos by) }
{
    mod_turn(multiple(1, angle) + multiple(number, by))
}

// V of main k, from what is kept of the mains in rows of V, X and Y, or 0 past the last.
pub fn argument_at(kept: &[i64; KEPT], k: usize) -> u64
    ensures { result ≡ get_or (arguments_in kept.now) k 0 }
{
    if MAINS <= k {
        return 0;
    }
    size(kept[3 * k])
}

// V of the shallow constituent in a row of the table, from the mains' V: the sum over its parts of coefficient times V.
pub fn shallow_argument<'a>(kept: &'a [i64; KEPT], table: &'a Table, row: usize) -> u64
    ensures { result ≡ argument_from_parts (arguments_in kept.now) (shallow_of table.now.shallowcards table.now.coefficients row) }
{
    let parts = *entry_at(&table.shallowcards, 6, row, 1, &0) as usize;
    let mut v = 0;
    for part in 0..parts {
        let main = *entry_at(&table.shallowcards, 6, row, 2 + part, &0) as usize;
        v = advanced(
            v,
            *entry_at(&table.coefficients, 4, row, part, &0),
            argument_at(kept, main),
        );
    }
    v
}
