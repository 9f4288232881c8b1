// The twelve months of a calendar year: each month's arguments and weights in a row of its own, worked out once.
#![tactic(auto)]

ghost use Rattle.std.specs.Prelude.{◌*◌, ◌≤◌, ◌≡◌, true};
ghost use Rattle.std.proofs.Math.Seq.{paste};
ghost use Rattle.limits.specs.Limits.{most_records};
ghost use Rattle.calendar.specs.Calendar.{year_in_range};
ghost use Rattle.cosine.specs.Fixed.{IsTable};
ghost use Rattle.year.specs.inner.Rows.{YearMonths, RowInto, TwelveRows, PreparedPost};

use cosine::ENTRIES;
use limits::RECORDS;
use month_prepared::Month;
use month_prepared::months::{MONTHS, Months};
use refusals::Answer;
use station::Station;
use table::Table;

// A row for each month, MONTHS × RECORDS places.
pub const ROWS: usize = 1_752;

// A year's rows: the frequencies, which are the same in each month, and for each month a row of its arguments and of its weights.
#[derive(Clone, Copy)]
pub struct YearRows {
    pub frequencies: [u64; RECORDS],
    pub arguments: [u64; ROWS],
    pub ps: [i32; ROWS],
    pub qs: [i32; ROWS],
}

// The months of a year, each with so many constituents.
pub fn months_of(year: u32, count: usize) -> Months
    requires { count ≤ most_records }
    ensures { YearMonths year count result }
{
    let mut lasts = [0u64; MONTHS];
    for (m, last) in lasts.iter_mut().enumerate() {
        *last = calendar::month_minutes(year, m as u32 + 1) as u64;
    }
    Months {
        count,
        many: MONTHS,
        lasts,
    }
}

// Puts a month's arguments and weights into row m.
fn put_month(month: &Month, m: usize, rows: &mut YearRows)
    requires { RowInto month.now.arguments m rows.old.arguments × RowInto month.now.ps m rows.old.ps × RowInto month.now.qs m rows.old.qs }
    ensures frequencies { rows.new.frequencies ≡ rows.old.frequencies }
    ensures arguments { rows.new.arguments ≡ paste rows.old.arguments (m * most_records) month.now.arguments most_records }
    ensures cosines { rows.new.ps ≡ paste rows.old.ps (m * most_records) month.now.ps most_records }
    ensures sines { rows.new.qs ≡ paste rows.old.qs (m * most_records) month.now.qs most_records }
{
    let from = m * RECORDS;
    // (no `copy_from_slice`, for the same reason as no `?` below)
    for k in 0..RECORDS {
        rows.arguments[from + k] = month.arguments[k];
        rows.ps[from + k] = month.ps[k];
        rows.qs[from + k] = month.qs[k];
    }
}

// Prepares every month of a year that is in range: its arguments and weights into its row, and the frequencies, which are the same in each; or
// the first record, from 1, that is refused by 11 in the first month that refuses one.
pub fn prepare(
    cosines: &[u32; ENTRIES],
    table: Table,
    station: Station,
    year: u32,
    rows: &mut YearRows,
) -> Answer
    requires { IsTable cosines.now × ((year_in_range year ≡ true) × TwelveRows rows.old.arguments rows.old.ps rows.old.qs) }
    ensures { PreparedPost table station year rows.new.frequencies rows.new.arguments rows.new.ps rows.new.qs result }
{
    for m in 0..MONTHS {
        // (no `?`: it calls std's code, which `has-the-clock` of claim_runs can't have)
        match month::prepare(cosines, table, station, year, m as u32 + 1) {
            Ok(month) => {
                rows.frequencies = month.frequencies;
                put_month(&month, m, rows);
            }
            Err(refused) => return Err(refused),
        }
    }
    Ok(())
}
