// Heights in months that follow one another: each minute's with the weights of the month that owns it.
ghost use Rattle.std.specs.Prelude.{◌≡◌, ◌≤◌, ◌<◌, length};
ghost use Rattle.month_prepared.specs.inner.Rows.{Following, last_of};
ghost use Rattle.heights.specs.Height.{height_over};
ghost use Rattle.heights.specs.Series.{series_of};
ghost use Rattle.heights.specs.inner.Lent.{AreLent, IsMonth, months_lent};
ghost use Rattle.heights.specs.inner.Places.{IsOwn, PlacesPost, SeriesWithin};

use crate::Lent;
use cosine::ENTRIES;
use limits::RECORDS;
use month_prepared::months::{InMonth, Months, owner};

// Months that follow one another, as they are lent with the table of cosines: V, P and Q in a row of RECORDS places for each month, the lags and
// the frequencies, which are the same in each.
#[derive(Clone, Copy)]
pub struct LentMonths<'a> {
    pub table: &'a [u32; ENTRIES],
    pub arguments: &'a [u64],
    pub lags: &'a [u16; RECORDS],
    pub frequencies: &'a [u64; RECORDS],
    pub ps: &'a [i32],
    pub qs: &'a [i32],
    pub months: Months,
}

impl<'a> LentMonths<'a> {
    // The constituents of a month, from 0.
    pub fn month(self, month: usize) -> Lent<'a>
        requires { AreLent self × (month < self.months.many) }
        ensures { IsMonth self.entry month result }
    {
        let from = month * RECORDS;
        let to = from + RECORDS;
        Lent {
            table: self.table,
            arguments: &self.arguments[from..to],
            lags: self.lags,
            frequencies: self.frequencies,
            ps: &self.ps[from..to],
            qs: &self.qs[from..to],
            count: self.months.count,
        }
    }
}

// The height at a minute of the months.
pub fn height(lent: LentMonths, minute: u64) -> i64
    requires lent { AreLent lent }
    requires minute_bound { minute ≤ last_of lent.months }
    ensures { result ≡ height_over (months_lent lent.entry) minute }
{
    let own = owner(lent.months, minute);
    crate::height(lent.month(own.month), own.minute)
}

// How many of the places that are left stand at minutes of the month that owns the first of them.
fn places_in(months: Months, own: InMonth, step: u64, left: usize) -> usize
    requires { Following months × (IsOwn months own × (0 < step)) }
    ensures { PlacesPost months own step left result }
{
    let month = own.month;
    if month + 1 == months.many {
        return left;
    }
    let places = (months.lasts[month] - own.minute - 1) as usize / step as usize + 1;
    // No `min`: `has-the-clock` of claim_runs cannot have std's code.
    if places < left { places } else { left }
}

// The heights at start, start + step, start + 2 × step and so on, one for each lent place: a month's places together, with that month's weights.
pub fn series(lent: LentMonths, start: u64, step: u64, out: &mut [i64])
    requires lent { AreLent lent }
    requires series_within { SeriesWithin (last_of lent.months) start step (length out.old) }
    ensures { out.new ≡ series_of (height_over (months_lent lent.entry)) start step (length out.old) }
{
    let mut n: usize = 0;
    // no `for`: it goes on by the places of a month, as many as these are
    while n < out.len() {
        let own = owner(lent.months, start + n as u64 * step);
        let end = n + places_in(lent.months, own, step, out.len() - n);
        crate::series::series(lent.month(own.month), own.minute, step, &mut out[n..end]);
        n = end;
    }
}
