// The station file in the columns of 001, section 3.3: a station card, then a card for each constituent.
ghost use Rattle.std.specs.Prelude.{◌≡◌, [], ◌+◌, ◌≤◌, min, length, drop};
ghost use Rattle.limits.specs.Limits.{most_frequencies};
ghost use Rattle.columns.specs.Lines.{lines_of};
ghost use Rattle.columns.specs.Names.{names_from};
ghost use Rattle.refusals.specs.Outcome as outcome;
ghost use Rattle.refusals.specs.Outcome.{number_of};
ghost use Rattle.station_file.specs.Station as spec;
ghost use Rattle.station_file.specs.Station.{records_on, station_file, file_outcome};
ghost use Rattle.station_file.specs.inner.File.{Told};

use crate::stationfields::{record_card, station_card};
use card::faults;
use card::faults::{Fault, Trouble, What};
use card::lines::{Misread, line_at, next_line};
use refusals::Refused;
use station::records::{Rows, no_rows, put};

// What an accepted station file comes to: its latitude in minutes, and its records in the clock's order.
#[derive(Clone, Copy)]
pub struct StationCards {
    pub latitude: i32,
    pub count: usize,
    pub rows: Rows,
}

// The refusal that a line's fault earns, with the line.
pub fn refusal_of(misread: Misread) -> Refused
    ensures { outcome.refused (number_of result.refusal) result.place ≡ file_outcome (spec.refused misread.fault misread.line) }
{
    faults::refusal_for(misread.fault.trouble).at(misread.line)
}

// A file that is refused at a line.
fn refused(fault: Fault, line: usize) -> Result<StationCards, Misread>
    ensures { Told (spec.refused fault line) result }
{
    Err(Misread { fault, line })
}

// The constituent cards from byte `first` of the file on, which is line 2.
fn read_records(
    file: &[u8],
    first: usize,
    latitude: i32,
    names: &[u8],
    frequencies: usize,
) -> Result<StationCards, Misread>
    requires { first ≤ length file.now }
    ensures { Told (records_on latitude (names_from names.now 0 (min frequencies most_frequencies)) (lines_of (drop first file.now)) 2 []) result }
{
    let mut rows = no_rows();
    let mut count = 0;
    let mut at = first;
    // (No `for`: a line's end shows where the next begins, and `split` at the LFs would give one line more behind the last LF, which `lines_of` does not have.)
    while at < file.len() {
        match record_card(line_at(file, at), names, frequencies, count) {
            Ok(Some(r)) => rows = put(rows, count, r),
            Ok(None) => {
                return Ok(StationCards {
                    latitude,
                    count,
                    rows,
                });
            }
            Err(fault) => return refused(fault, count + 2),
        }
        at = next_line(file, at);
        count += 1;
    }
    Ok(StationCards {
        latitude,
        count,
        rows,
    })
}

// A station file: accepted whole, or what is wrong with it and on which line. The names are rows of five bytes, one for each frequency of the card
// file.
pub fn read_station(file: &[u8], names: &[u8], frequencies: usize) -> Result<StationCards, Misread>
    ensures { Told (station_file (names_from names.now 0 (min frequencies most_frequencies)) file.now) result }
{
    if file.len() == 0 {
        return refused(faults::only(What::File, Trouble::NoStationCard), 1);
    }
    match station_card(columns::first_line(file)) {
        Ok(latitude) => read_records(file, next_line(file, 0), latitude, names, frequencies),
        Err(fault) => refused(fault, 1),
    }
}
