// A year's sheet, from a table and a station that are there and a year that is in range.
ghost use Rattle.std.specs.Prelude.{◌≡◌, true, false, length};
ghost use Rattle.calendar.specs.Calendar.{year_in_range};
ghost use Rattle.cosine.specs.Fixed.{IsTable};
ghost use Rattle.station.specs.Strides.{strides_outside};
ghost use Rattle.month_prepared.specs.inner.Rows.{InRange, last_of};
ghost use Rattle.heights.specs.inner.Lent.{months_lent};
ghost use Rattle.turns.specs.inner.Lists.{Rows};
ghost use Rattle.clock.specs.Returned.{turns_returned};
ghost use Rattle.clock.specs.inner.Posts.{SheetPost, SheetWithin, WrittenPost};

use calls::annual;
use calls::annual::Sheet;
use cosine::ENTRIES;
use heights::months::LentMonths;
use limits::RECORDS;
use refusals::{Refusal, Refused};
use station::Station;
use table::Table;
use turns::strides::station_stride;
use turns::{Reach, Summary};
use year::{ROWS, YearRows};

// The turns of the search are counted, 10; then all three buffers are written.
fn written(
    lent: LentMonths,
    stride: u64,
    sheet: Sheet,
    series: &mut [i64],
    minutes: &mut [u32],
    heights: &mut [i64],
) -> Result<Summary, Refused>
    requires rows { Rows lent }
    requires sheet_within { SheetWithin (last_of lent.months) stride sheet (length series.old) }
    ensures { WrittenPost (months_lent lent.entry) stride sheet series.old series.new minutes.old minutes.new heights.old heights.new (turns_returned result) }
{
    let reach = Reach {
        stride,
        first: sheet.first as u64,
        last: sheet.last as u64,
    };
    // No `?`: `has-the-clock` of claim_runs cannot have std's code.
    match turns::turns(lent, reach, minutes, heights) {
        Ok(found) => {
            heights::months::series(lent, sheet.start as u64, sheet.step as u64, series);
            Ok(found)
        }
        Err(refused) => Err(refused),
    }
}

// The months of the year are prepared, 11; its minutes asked, 9; then the sheet is worked out from their rows.
pub fn sheet(
    cosines: &[u32; ENTRIES],
    table: Table,
    station: Station,
    sheet: Sheet,
    series: &mut [i64],
    minutes: &mut [u32],
    heights: &mut [i64],
) -> Result<Summary, Refused>
    requires table { IsTable cosines.now × (InRange table.frequencies table.speeds × (year_in_range sheet.year ≡ true)) }
    requires strides_value { strides_outside station.strides ≡ false }
    ensures { SheetPost table station sheet series.old series.new minutes.old minutes.new heights.old heights.new (turns_returned result) }
{
    let months = year::months_of(sheet.year, month_prepared::held(station.count));
    let mut rows = YearRows {
        frequencies: [0u64; RECORDS],
        arguments: [0u64; ROWS],
        ps: [0i32; ROWS],
        qs: [0i32; ROWS],
    };
    // No `?`: `has-the-clock` of claim_runs cannot have std's code.
    if let Err(refused) = year::prepare(cosines, table, station, sheet.year, &mut rows) {
        return Err(refused);
    }
    if annual::sheet_outside(sheet, series.len()) {
        return Err(Refusal::BadMinutes.at(0));
    }
    let lent = LentMonths {
        table: cosines,
        arguments: &rows.arguments,
        lags: &station.lags,
        frequencies: &rows.frequencies,
        ps: &rows.ps,
        qs: &rows.qs,
        months,
    };
    let stride = station_stride(table, station);
    written(lent, stride, sheet, series, minutes, heights)
}
