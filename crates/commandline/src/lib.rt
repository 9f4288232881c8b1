// What a command line asks.
//
// The words are lent in one row, each ended by a byte 0, behind the default ones: the two files and the two units that are meant where
// nothing else is said. A word is named by where it begins.
#![tactic(auto)]

mod asking; // what a command asks
pub mod lengths; // a station's stride lengths
mod numbers; // a whole number
mod options; // the words, sorted
mod plain; // the plain words, and the form of a command
pub mod times; // a time of day
mod row; // the row of words

ghost use Rattle.std.specs.Prelude.{◌≡◌, IfOk};
ghost use Rattle.commandline.specs.Days.{DayAsked};
ghost use Rattle.commandline.specs.Lengths.{lengths_at};

use crate::asking::asked_of;
use crate::lengths::lengths_of;
use crate::options::{Parsed, all_words};
use crate::row::{CARDS, FEET, METRES, STATION};
pub use crate::row::{ARGUMENTS, default_byte, word};
use station::strides;
use station::strides::Strides;

// What is asked: a view with its year, month and so on, bookings also with where their file's name begins.
#[derive(Clone, Copy)]
pub enum Asked {
    Help,
    Refusals,
    Month(u32, u32),
    Day(u32, u32, u32, u32),
    Heights(u32, u32, u32),
    Series(u32, u32, u32, u32, u32, u32),
    MonthDrawing(u32, u32),
    DayDrawing(u32, u32, u32),
    Year(u32),
    YearTable(u32),
    YearDrawing(u32),
    Bookings(u32, u32, usize),
    Hourly(u32, u32, u32),
}

// What can be wrong with a command line.
#[derive(Clone, Copy, Debug, PartialEq, Eq)]
pub enum Wrong {
    NoCommand,
    NoOption,
    NoValue,
    TooFew,
    TooMany,
    NotNumber,
    NotTime,
    NotDay,
    NotLengths,
}

impl Wrong {
    // This is wrong with the word that begins at a byte.
    fn at(self, start: usize) -> WrongWord {
        WrongWord { wrong: self, start }
    }
}

// What is wrong, and where the word begins that is.
#[derive(Clone, Copy, Debug, PartialEq, Eq)]
pub struct WrongWord {
    pub wrong: Wrong,
    pub start: usize,
}

// What is asked, where the words begin that name the card file, the station file and the unit, and the station's strides, with where their
// word begins if they are not the usual ones.
#[derive(Clone, Copy)]
pub struct Request {
    pub asked: Asked,
    pub cards: usize,
    pub station: usize,
    pub unit: usize,
    pub strides: Strides,
    pub lengths: Option<usize>,
}

// What is asked with --csv, which stands at a byte: the year's turns as rows. With any other view it is one word too many.
fn as_table(asked: Asked, csv: usize) -> Result<Asked, WrongWord>
    requires { DayAsked asked }
    ensures { IfOk result (λ table. DayAsked table) }
{
    match asked {
        Asked::Year(year) => Ok(Asked::YearTable(year)),
        _ => Err(Wrong::TooMany.at(csv)),
    }
}

// The station's stride lengths: those of the word that begins at a byte, the usual ones where there is none.
#[tactic(auto, unfolding(crate::specs::Lengths::lengths_at))]
fn lengths_at(words: &[u8], at: Option<usize>) -> Option<Strides>
    ensures { result ≡ lengths_at words.now at }
{
    match at {
        None => Some(strides::usual()),
        Some(at) => lengths_of(word(words, at)),
    }
}

// What is wrong with the options.
fn check_options(parsed: &Parsed, strides: Option<Strides>) -> Result<(), WrongWord> {
    if let Some(unknown) = parsed.unknown {
        return Err(Wrong::NoOption.at(unknown));
    }
    if let Some(missing) = parsed.missing {
        return Err(Wrong::NoValue.at(missing));
    }
    if let (None, Some(lengths)) = (strides, parsed.lengths) {
        return Err(Wrong::NotLengths.at(lengths));
    }
    Ok(())
}

// What the words ask, with these stride lengths.
fn asked_by(words: &[u8], parsed: &Parsed, strides: Option<Strides>) -> Result<Asked, WrongWord>
    ensures { IfOk result (λ asked. DayAsked asked) }
{
    if parsed.help {
        return Ok(Asked::Help);
    }
    check_options(parsed, strides)?;
    if parsed.plain.count() == 0 {
        return Ok(Asked::Help);
    }
    let asked = asked_of(word(words, parsed.plain.words[0].start), &parsed.plain)?;
    match parsed.csv {
        None => Ok(asked),
        Some(csv) => as_table(asked, csv),
    }
}

// What the words ask, and their files, unit and strides; or which word is wrong. With no word it is the help. A day that is asked is at
// least the first. The unit of the sample's station is feet, any other's metres, where none is given.
pub fn parse(words: &[u8]) -> Result<Request, WrongWord>
    ensures { IfOk result (λ request. DayAsked request.asked) }
{
    let parsed = all_words(words);
    let strides = lengths_at(words, parsed.lengths);
    let asked = asked_by(words, &parsed, strides)?;
    let unit = if parsed.station.is_none() {
        FEET
    } else {
        METRES
    };
    Ok(Request {
        asked,
        cards: parsed.cards.unwrap_or(CARDS),
        station: parsed.station.unwrap_or(STATION),
        unit: parsed.unit.unwrap_or(unit),
        strides: strides.unwrap_or(strides::usual()),
        lengths: parsed.lengths,
    })
}
