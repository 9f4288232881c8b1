// The nodal correction of a shallow-water constituent, its pair X, Y, from the sums of the mains, with refusal 11.
ghost use Rattle.std.specs.Prelude.{◌≡◌, ◌<◌, ◌^◌, get_or};
ghost use Rattle.table.specs.inner.View.{naturals, integers, part_of, shallow_of};
ghost use Rattle.month_satellites.specs.inner.Ranges.{Sized};
ghost use Rattle.month_satellites.specs.inner.View.{pair_of};
ghost use Rattle.refusals.specs.Checked.{good};
ghost use Rattle.month_pairs.specs.Pairs.{start_pair};
ghost use Rattle.month_pairs.specs.inner.Ranges.{pair_most, Small};
ghost use Rattle.month_pairs.specs.inner.Corrected.{corrected_of};
ghost use Rattle.month_pairs.specs.Shallow.{times_part, pair_from_parts};
ghost use Rattle.month_pairs.specs.inner.Rows.{pairs_of};

use crate::pairs::{check, times_part};
use limits::MAINS;
use month_arguments::KEPT;
use month_satellites::satellites::Pair;
use table::Table;
use table::entries::entry_at;

// The pair of main k by its sums X and Y, from what is kept of the mains in rows of V, X and Y: none where it is too large, or (2^20, 0) past the last.
pub fn pair_at(kept: &[i64; KEPT], k: usize) -> Option<Pair>
    ensures result_value { corrected_of result ≡ get_or (pairs_of kept.now) k (good start_pair) }
    ensures small { Small result }
{
    if MAINS <= k {
        return Some(Pair { x: 1_048_576, y: 0 });
    }
    let x = kept[3 * k + 1];
    let y = kept[3 * k + 2];
    check(Pair { x, y })
}

// A pair multiplied by part j of the shallow constituent in row k.
fn times_row_part<'a>(
    kept: &'a [i64; KEPT],
    table: &'a Table,
    k: usize,
    j: usize,
    p: Pair,
) -> Option<Pair>
    requires { (j < 2 ^ 32) × Sized pair_most p }
    ensures result_value { corrected_of result ≡ times_part (pairs_of kept.now) (pair_of p) (part_of (naturals 6 table.now.shallowcards k) (integers 4 table.now.coefficients k) j) }
    ensures small { Small result }
{
    let main = *entry_at(&table.shallowcards, 6, k, 2 + j, &0) as usize;
    times_part(
        p,
        pair_at(kept, main),
        *entry_at(&table.coefficients, 4, k, j, &0),
    )
}

// The pair of the shallow constituent in row k.
pub fn shallow_pair<'a>(kept: &'a [i64; KEPT], table: &'a Table, k: usize) -> Option<Pair>
    ensures result_value { corrected_of result ≡ pair_from_parts (pairs_of kept.now) (shallow_of table.now.shallowcards table.now.coefficients k) }
    ensures small { Small result }
{
    let count = *entry_at(&table.shallowcards, 6, k, 1, &0) as usize;
    let mut p = Pair { x: 1_048_576, y: 0 };
    for j in 0..count {
        // (no `?`: it calls std's code, which `has-the-clock` of claim_runs can't have)
        let Some(q) = times_row_part(kept, table, k, j, p) else {
            return None;
        };
        p = q;
    }
    Some(p)
}
