// The mains that a month needs, each worked out once: its V, and its sums X and Y, kept in a row of three. A V of T or more stands for one that is not worked out yet.
ghost use Rattle.std.specs.Prelude.{◌≡◌, ◌<◌};
ghost use Rattle.angles.specs.Ticks.{turn};
ghost use Rattle.cosine.specs.Fixed.{IsTable};
ghost use Rattle.month_arguments.specs.Longitudes.{nodal};
ghost use Rattle.month_arguments.specs.inner.Longitudes.{longitudes_of, Reduced};
ghost use Rattle.month_satellites.specs.inner.Ranges.{AreAngles};
ghost use Rattle.month_satellites.specs.inner.View as nodalView;
ghost use Rattle.month_satellites.specs.inner.View.{pair_of};
ghost use Rattle.month_pairs.specs.Pairs.{checked};
ghost use Rattle.table.specs.inner.View.{naturals};
ghost use Rattle.month_workings.specs.inner.Kept.{argument_at, none_kept, WithMain, WithParts};
ghost use Rattle.month_workings.specs.inner.Given.{IsGiven, argument_by, corrected_by, KeptBy};

use angles::TURN;
use cosine::ENTRIES;
use limits::MAINS;
use month_arguments::KEPT;
use month_arguments::arguments::{argument_at, main_argument};
use month_arguments::astronomy::Longitudes;
use month_satellites::latitude::Factors;
use month_satellites::satellites::{Nodal, Pair, main_sum};
use table::entries::entry_at;
use table::{MAIN_ANGLES, Table};

// What every main is worked out from, besides its rows of the table: the latitude factors, the longitudes, and how many mains there are.
#[derive(Clone, Copy)]
pub struct Given {
    pub factors: Factors,
    pub longitudes: Longitudes,
    pub mains: usize,
}

// V of a main that is not worked out yet: T.
// (No Option: V lies with two sums in a flat row of numbers, of which `none_kept` and `KeptBy` speak.)
const NOT_YET: i64 = TURN as i64;

// Room for 64 mains, none of them worked out yet.
pub fn none_kept() -> [i64; KEPT]
    ensures { result ≡ none_kept }
{
    [NOT_YET; KEPT]
}

// The longitudes that satellites go by.
fn nodal_of(l: Longitudes) -> Nodal
    requires { Reduced l }
    ensures result_value { nodalView.longitudes_of result ≡ nodal (longitudes_of l) }
    ensures are_angles { AreAngles result }
{
    Nodal {
        perigee: l.perigee,
        node: l.node,
        solar: l.solar,
    }
}

// V of the main in row k of so many, or 0 past the last.
fn argument_of(angles: &[i8; MAIN_ANGLES], mains: usize, k: usize, l: Longitudes) -> u64
    ensures value { result ≡ argument_at (longitudes_of l) angles.now mains k }
    ensures upper_bound { result < turn }
{
    if mains <= k {
        return 0;
    }
    main_argument(angles, k, l)
}

// The sums of the main in row k, or (2^20, 0) past the last.
fn sum_of<'a>(cosines: &'a [u32; ENTRIES], table: &'a Table, k: usize, given: Given) -> Pair
    requires cosines { IsTable cosines.now }
    requires given { IsGiven given }
    ensures { checked (pair_of result) ≡ corrected_by given table.now k }
{
    if given.mains <= k {
        return Pair { x: 1_048_576, y: 0 };
    }
    let l = nodal_of(given.longitudes);
    let first = *entry_at(&table.maincards, 3, k, 1, &0);
    let count = *entry_at(&table.maincards, 3, k, 2, &0);
    main_sum(cosines, table, first, count, given.factors, l)
}

// Works out the main in row k, if it is not yet.
pub fn work_main<'a>(
    cosines: &'a [u32; ENTRIES],
    table: &'a Table,
    k: usize,
    given: Given,
    kept: &mut [i64; KEPT],
)
    requires cosines { IsTable cosines.now }
    requires given { IsGiven given }
    requires kept_by { KeptBy given table.now kept.old }
    ensures { WithMain (argument_by given table.now) (corrected_by given table.now) k kept.old kept.new }
{
    if MAINS <= k {
        return;
    }
    if argument_at(kept, k) < TURN {
        return;
    }
    let p = sum_of(cosines, table, k, given);
    let v = argument_of(&table.mainangles, given.mains, k, given.longitudes) as i64;
    let x = p.x;
    let y = p.y;
    kept[3 * k] = v;
    kept[3 * k + 1] = x;
    kept[3 * k + 2] = y;
}

// Works out the mains of the parts of the shallow constituent in a row, those that are not yet.
pub fn work_parts<'a>(
    cosines: &'a [u32; ENTRIES],
    table: &'a Table,
    row: usize,
    given: Given,
    kept: &mut [i64; KEPT],
)
    requires cosines { IsTable cosines.now }
    requires given { IsGiven given }
    requires kept_by { KeptBy given table.now kept.old }
    ensures { WithParts (argument_by given table.now) (corrected_by given table.now) (naturals 6 table.now.shallowcards row) kept.new }
{
    let count = *entry_at(&table.shallowcards, 6, row, 1, &0) as usize;
    for j in 0..count {
        let main = *entry_at(&table.shallowcards, 6, row, 2 + j, &0) as usize;
        work_main(cosines, table, main, given, kept);
    }
}
