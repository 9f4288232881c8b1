// The turns of a whole year, minutes counted from 1 January, and beside them a series of its heights.
//
// As in a month, the search leaves out a turn behind its last whole stride, and searches over the year's last minutes find it.
ghost use Rattle.clock.specs.View.{Made};
ghost use Rattle.monthturns.specs.Year.{YearTurns};

use crate::widths::widest_first;
use crate::{ends_of, with_ends};
use calls::annual::Sheet;
use clock::Clock;
use refusals::Refused;
use station::strides::Strides;
use turns::Summary;

// The turns of a year at a station with these strides, from the front of the buffers, and the heights of a series from its first minute on, so many minutes
// apart: the clock's own year, and what searches as wide as the strides find behind the last one at the year's end. A refusal is the clock's.
pub fn turns_of(
    clock: Clock,
    year: u32,
    step: u32,
    strides: Strides,
    series: &mut [i64],
    minutes: &mut [u32],
    heights: &mut [i64],
) -> Result<Summary, Refused>
    requires { Made clock }
    ensures { YearTurns clock year step series.old series.new minutes.old minutes.new heights.old heights.new result }
{
    let widths = widest_first(strides);
    let last = calendar::year_minutes(year) as u32;
    let sheet = Sheet {
        year,
        start: 0,
        step,
        first: 0,
        last,
    };
    let found = clock::year(clock, sheet, series, minutes, heights)?;
    let ends = ends_of(
        |from, m, h| {
            let end = Sheet {
                year,
                start: 0,
                step: 1,
                first: from,
                last,
            };
            clock::year(clock, end, &mut [], m, h)
        },
        last,
        widths,
    );
    Ok(with_ends(found, ends, minutes, heights))
}
