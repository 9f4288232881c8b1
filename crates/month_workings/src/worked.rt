// What stands at a place of the table, worked out from the mains that it needs: its V, and its pair or refusal 11.
ghost use Rattle.cosine.specs.Fixed.{IsTable};
ghost use Rattle.month_workings.specs.inner.Given.{IsGiven, argument_by, corrected_by, KeptBy};
ghost use Rattle.month_workings.specs.inner.View.{Ready, FromMains};

use crate::workings::{Given, work_main, work_parts};
use cosine::ENTRIES;
use month_arguments::KEPT;
use month_arguments::arguments::{argument_at, shallow_argument};
use month_pairs::nodal::{pair_at, shallow_pair};
use month_satellites::satellites::Pair;
use table::Table;
use table::definitions::Defined;

// What stands at a place of the table: its V, and its pair, or none by refusal 11.
#[derive(Clone, Copy)]
pub struct Worked {
    pub argument: u64,
    pub corrected: Option<Pair>,
}

// Works out the mains that a constituent needs, those that are not yet.
pub fn work_mains<'a>(
    found: Option<Defined>,
    cosines: &'a [u32; ENTRIES],
    table: &'a Table,
    given: Given,
    kept: &mut [i64; KEPT],
)
    requires cosines { IsTable cosines.now }
    requires given { IsGiven given }
    requires kept_by { KeptBy given table.now kept.old }
    ensures { Ready (argument_by given table.now) (corrected_by given table.now) table.now.shallowcards found kept.new }
{
    match found {
        Some(Defined::Main(row)) => work_main(cosines, table, row, given, kept),
        Some(Defined::Shallow(row)) => work_parts(cosines, table, row, given, kept),
        None => {}
    }
}

// V and the pair of a constituent, from what is kept of the mains.
pub fn from_mains<'a>(found: Option<Defined>, kept: &'a [i64; KEPT], table: &'a Table) -> Worked
    ensures { FromMains kept.now table.now.shallowcards table.now.coefficients found result }
{
    match found {
        Some(Defined::Main(row)) => Worked {
            argument: argument_at(kept, row),
            corrected: pair_at(kept, row),
        },
        Some(Defined::Shallow(row)) => Worked {
            argument: shallow_argument(kept, table, row),
            corrected: shallow_pair(kept, table, row),
        },
        None => Worked {
            argument: 0,
            corrected: Some(Pair { x: 0, y: 0 }),
        },
    }
}
