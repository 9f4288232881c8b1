// Months that follow one another, from a single one to the twelve of a year, and which of them owns a minute.
ghost use Rattle.std.specs.Prelude.{◌≤◌, get_or, ◌≡◌};
ghost use Rattle.month_prepared.specs.inner.Rows.{Following, last_of, OwnerPost};

// The most months that follow one another: a year's.
pub const MONTHS: usize = 12;

// How many constituents each month has, how many months there are, and the last minute of each. (Their arguments and weights stand in
// arrays that are lent beside, a row of RECORDS places for each month.)
#[derive(Clone, Copy)]
pub struct Months {
    pub count: usize,
    pub many: usize,
    pub lasts: [u64; MONTHS],
}

// The month, from 0, that owns a minute, and the minute in it.
#[derive(Clone, Copy)]
pub struct InMonth {
    pub month: usize,
    pub minute: u64,
}

// A single month.
pub fn one_month(count: usize, last: u64) -> Months
    ensures { (result.count ≡ count) × ((result.many ≡ 1) × (get_or result.lasts 0 0 ≡ last)) }
{
    Months {
        count,
        many: 1,
        lasts: [last; MONTHS],
    }
}

// The owner of a minute: midnight at a month's end belongs to the month that begins, the last minute of all to the last month.
pub fn owner(months: Months, minute: u64) -> InMonth
    requires { Following months × (minute ≤ last_of months) }
    ensures { OwnerPost months minute result }
{
    let mut left = minute;
    let final_month = months.many - 1;
    for month in 0..final_month {
        if left < months.lasts[month] {
            return InMonth {
                month,
                minute: left,
            };
        }
        left = left - months.lasts[month];
    }
    InMonth {
        month: final_month,
        minute: left,
    }
}
