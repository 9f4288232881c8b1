// The columns of the station file's two cards, as the formats of 001, section 3.3, have them. Columns are counted from 0.
ghost use Rattle.std.specs.Prelude.{◌≡◌};
ghost use Rattle.station_file.specs.Formats.{degrees_field, minutes_field, amplitude_field, phase_field};

use card::faults::What;
use card::formats::NumberField;
use fields::Format;

// The station card: the column before the degrees, their first, and the two behind the minutes.
pub const MINUS: usize = 35;

pub const DEGREES: usize = 36;

pub const MARK: usize = 41;

pub const SECOND_MARK: usize = 42;

// The latitude's degrees.
// (A function and no constant, as the other fields here: its clause ties it to `degrees_field`, and a constant has no clause.)
pub fn degrees() -> NumberField
    ensures { result ≡ degrees_field }
{
    NumberField {
        what: What::Degrees,
        which: None,
        from: DEGREES,
        width: 2,
        format: Format::Whole,
        low: -99,
        high: 99,
    }
}

// Its minutes.
pub fn minutes() -> NumberField
    ensures { result ≡ minutes_field }
{
    NumberField {
        what: What::Minutes,
        which: None,
        from: 39,
        width: 2,
        format: Format::Whole,
        low: 0,
        high: 59,
    }
}

// A constituent card: the column where its name begins.
pub const CONSTITUENT_NAME: usize = 5;

// The largest number that a record carries.
const CARRIED: i64 = 4_294_967_295;

// Its amplitude.
pub fn amplitude() -> NumberField
    ensures { result ≡ amplitude_field }
{
    NumberField {
        what: What::Amplitude,
        which: None,
        from: 38,
        width: 8,
        format: Format::Fixed(4),
        low: 0,
        high: CARRIED,
    }
}

// Its phase lag.
pub fn phase_lag() -> NumberField
    ensures { result ≡ phase_field }
{
    NumberField {
        what: What::PhaseLag,
        which: None,
        from: 46,
        width: 7,
        format: Format::Fixed(2),
        low: 0,
        high: CARRIED,
    }
}
