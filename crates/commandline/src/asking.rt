// What a command asks with the plain words behind it.
ghost use Rattle.std.specs.Prelude.{◌≡◌, ◌≤◌, IfOk};
ghost use Rattle.commandline.specs.Days.{DayAsked, hourly_asked};

use crate::plain::{Form, Plain, Wanted};
use crate::{Asked, Wrong, WrongWord};

// The commands.
#[derive(Clone, Copy)]
enum Command {
    Year,
    Month,
    Day,
    Heights,
    Series,
    Svg,
    Bookings,
    Hourly,
    Refusals,
}

// The command that a word names, if any.
fn command_of(word: &[u8]) -> Option<Command> {
    Some(match word {
        b"year" => Command::Year,
        b"month" => Command::Month,
        b"day" => Command::Day,
        b"heights" => Command::Heights,
        b"series" => Command::Series,
        b"svg" => Command::Svg,
        b"bookings" => Command::Bookings,
        b"hourly" => Command::Hourly,
        b"refusals" => Command::Refusals,
        _ => return None,
    })
}

// Words that are all numbers: as many as are taken of this.
static NUMBERS: [Wanted; 7] = [Wanted::Number; 7];

static DAY: [Wanted; 4] = [Wanted::Number, Wanted::Number, Wanted::Number, Wanted::Time];

static SERIES: [Wanted; 6] = [
    Wanted::Number,
    Wanted::Number,
    Wanted::Number,
    Wanted::Time,
    Wanted::Number,
    Wanted::Number,
];

static BOOKINGS: [Wanted; 3] = [Wanted::Number, Wanted::Number, Wanted::File];

// The form of so many words that are wanted, of which `least` have to be there.
fn form(least: usize, wanted: &'static [Wanted]) -> Form {
    Form { least, wanted }
}

// year YEAR; month YEAR MONTH; day YEAR MONTH DAY [HH:MM]; heights YEAR MONTH [STEP]; series YEAR MONTH DAY HH:MM STEP COUNT;
// svg YEAR [MONTH [DAY]]; bookings YEAR MONTH FILE; hourly YEAR MONTH STATION; refusals
fn form_of(command: Command) -> Form {
    match command {
        Command::Year => form(1, &NUMBERS[..1]),
        Command::Month => form(2, &NUMBERS[..2]),
        Command::Day => form(3, &DAY),
        Command::Heights => form(2, &NUMBERS[..3]),
        Command::Series => form(6, &SERIES),
        Command::Svg => form(1, &NUMBERS[..3]),
        Command::Bookings => form(3, &BOOKINGS),
        Command::Hourly => form(3, &NUMBERS[..3]),
        Command::Refusals => form(0, &[]),
    }
}

// A day of a month, the word that begins at a byte: day 0 is none.
fn check_day(day: u32, start: usize) -> Result<(), WrongWord>
    ensures { IfOk result (λ _. 1 ≤ day) }
{
    if day < 1 {
        return Err(Wrong::NotDay.at(start));
    }
    Ok(())
}

// A drawing's, of a year, with a third word of a month, or with a fourth of a day.
fn drawing_of(plain: &Plain, v: [u32; 8]) -> Result<Asked, WrongWord>
    ensures { IfOk result (λ asked. DayAsked asked) }
{
    match plain.count() {
        0..=2 => Ok(Asked::YearDrawing(v[1])),
        3 => Ok(Asked::MonthDrawing(v[1], v[2])),
        _ => {
            check_day(v[3], plain.words[3].start)?;
            Ok(Asked::DayDrawing(v[1], v[2], v[3]))
        }
    }
}

// A month's heights, an hour apart where no step is given.
fn heights_of(plain: &Plain, v: [u32; 8]) -> Asked
    ensures { DayAsked result }
{
    let step = if plain.count() < 4 { 60 } else { v[3] };
    Asked::Heights(v[1], v[2], step)
}

// The hourly cards of a month, under the harbour office's number of the station.
fn hourly_of(v: [u32; 8]) -> Asked
    ensures value { result ≡ hourly_asked v }
    ensures day_asked { DayAsked result }
{
    Asked::Hourly(v[1], v[2], v[3])
}

// What a command asks with words that fit its form.
fn with_values(command: Command, plain: &Plain, v: [u32; 8]) -> Result<Asked, WrongWord>
    ensures { IfOk result (λ asked. DayAsked asked) }
{
    Ok(match command {
        Command::Year => Asked::Year(v[1]),
        Command::Month => Asked::Month(v[1], v[2]),
        Command::Day => {
            check_day(v[3], plain.words[3].start)?;
            Asked::Day(v[1], v[2], v[3], v[4])
        }
        Command::Heights => heights_of(plain, v),
        Command::Series => {
            check_day(v[3], plain.words[3].start)?;
            Asked::Series(v[1], v[2], v[3], v[4], v[5], v[6])
        }
        Command::Svg => drawing_of(plain, v)?,
        Command::Bookings => Asked::Bookings(v[1], v[2], plain.words[3].start),
        Command::Hourly => hourly_of(v),
        Command::Refusals => Asked::Refusals,
    })
}

// What the command that the first plain word names asks with those behind it. Where it names none, a word behind it that is no number is
// the wrong one, and else it is itself.
pub fn asked_of(first: &[u8], plain: &Plain) -> Result<Asked, WrongWord>
    ensures { IfOk result (λ asked. DayAsked asked) }
{
    let Some(command) = command_of(first) else {
        plain.fit(form(0, &NUMBERS))?;
        return Err(Wrong::NoCommand.at(plain.words[0].start));
    };
    plain.fit(form_of(command))?;
    with_values(command, plain, plain.values())
}
