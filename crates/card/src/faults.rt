// What is wrong with a refused card: which of its fields, and what is the matter with it. 01's number of the refusal follows from it.
ghost use Rattle.std.specs.Prelude.{◌≡◌};
ghost use Rattle.card.specs.Faults as spec;
ghost use Rattle.card.specs.Faults.{bad_line, refusal_for, trouble_in};

use fields::FieldError;
use limits::COLUMNS;
use refusals::Refusal;

// What is at fault: a field of a card, its name, the card itself, or the file.
#[derive(Clone, Copy)]
pub enum What {
    File,
    Card,
    Name,
    Frequency,
    Longitude,
    Increase,
    Doodson,
    Phase,
    SatelliteCount,
    Difference,
    SatellitePhase,
    Ratio,
    PartCount,
    Coefficient,
    PartName,
    Degrees,
    Minutes,
    Mark,
    Latitude,
    Amplitude,
    PhaseLag,
}

// What is wrong with it.
#[derive(Clone, Copy)]
pub enum Trouble {
    TooLong,
    BadByte,
    Malformed,
    OutOfRange,
    NotWhole,
    PastTwelve,
    BadMark,
    SouthTwice,
    Blank,
    Twice,
    NoFrequency,
    NoDefinition,
    NotMain,
    TooManyFrequencies,
    TooManyMains,
    TooManySatellites,
    TooManyShallows,
    TooManyRecords,
    EndedInFrequencies,
    EndedInLongitudes,
    EndedInMains,
    EndedInShallows,
    NoStationCard,
}

impl From<FieldError> for Trouble {
    ghost from_gives = { λ error trouble. trouble ≡ trouble_in error };

    fn from(error: FieldError) -> Trouble {
        match error {
            FieldError::Malformed => Trouble::Malformed,
            FieldError::OutOfRange => Trouble::OutOfRange,
        }
    }
}

// What is at fault, which of several, from 1 (none: there is one only), and what is wrong with it.
#[derive(Clone, Copy)]
pub struct Fault {
    pub what: What,
    pub which: Option<usize>,
    pub trouble: Trouble,
}

// A fault of a thing of which there is one only.
pub fn only(what: What, trouble: Trouble) -> Fault
    ensures { result ≡ spec.only what trouble }
{
    Fault {
        what,
        which: None,
        trouble,
    }
}

// A line that is not good: it is too long, or has a byte that no card has.
pub fn bad_line(line: &[u8]) -> Fault
    ensures { result ≡ bad_line line.now }
{
    if COLUMNS < line.len() {
        return only(What::Card, Trouble::TooLong);
    }
    only(What::Card, Trouble::BadByte)
}

// The refusal that a trouble earns. (No `From`: the definition of the same name has the row of 01's table for each trouble.)
pub fn refusal_for(trouble: Trouble) -> Refusal
    ensures { result ≡ refusal_for trouble }
{
    match trouble {
        Trouble::TooLong | Trouble::BadByte => Refusal::BadLine,
        Trouble::Malformed => Refusal::Malformed,
        Trouble::OutOfRange
        | Trouble::NotWhole
        | Trouble::PastTwelve
        | Trouble::BadMark
        | Trouble::SouthTwice => Refusal::OutOfRange,
        Trouble::Blank | Trouble::Twice => Refusal::BadName,
        Trouble::NoFrequency | Trouble::NoDefinition | Trouble::NotMain => Refusal::Missing,
        Trouble::TooManyFrequencies
        | Trouble::TooManyMains
        | Trouble::TooManySatellites
        | Trouble::TooManyShallows
        | Trouble::TooManyRecords => Refusal::TooMany,
        Trouble::EndedInFrequencies
        | Trouble::EndedInLongitudes
        | Trouble::EndedInMains
        | Trouble::EndedInShallows
        | Trouble::NoStationCard => Refusal::Ended,
    }
}
