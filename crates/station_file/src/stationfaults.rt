// What is wrong with a station that was read and that the clock refuses.
ghost use Rattle.std.specs.Prelude.{◌≡◌};
ghost use Rattle.refusals.specs.Outcome.{number_of};
ghost use Rattle.station_file.specs.Faults.{record_fault, station_fault};

use card::faults;
use card::faults::{Fault, Trouble, What};
use limits::RECORDS;
use refusals::Refusal;
use station::records::Rows;

// By the refusal, of a record with this amplitude.
fn record_fault(refusal: Refusal, amplitude: u32) -> Fault
    ensures { result ≡ record_fault (number_of refusal) amplitude }
{
    match refusal {
        Refusal::Missing => faults::only(What::Name, Trouble::NoFrequency),
        Refusal::BadName => faults::only(What::Name, Trouble::Twice),
        _ => {
            if station::amplitude_outside(amplitude) {
                return faults::only(What::Amplitude, Trouble::OutOfRange);
            }
            faults::only(What::PhaseLag, Trouble::OutOfRange)
        }
    }
}

// By the refusal and its place: 0 is the latitude, a place past the last record is one record too many.
pub fn station_fault(refusal: Refusal, place: usize, rows: Rows) -> Fault
    ensures { result ≡ station_fault (number_of refusal) place rows }
{
    if place == 0 {
        return faults::only(What::Latitude, Trouble::OutOfRange);
    }
    if RECORDS < place {
        return faults::only(What::Card, Trouble::TooManyRecords);
    }
    record_fault(refusal, rows.amplitudes[place - 1])
}
