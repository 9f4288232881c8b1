// What the program says of a refusal or of a command line that it cannot follow: one line on standard error each.
#![tactic(auto)]

mod pieces; // pieces of a line
mod phrases; // which words say what
mod textlines; // a line of a text
pub mod matters; // what a refusal is about: of minutes, or of a card
pub mod months; // a month by its name

use crate::months::Month;
use card::faults::Fault;
use commandline::Wrong;
use limits::STEP;
use refusals::{Refusal, Refused};
use std::io;

// Says a piece of text that need not be one of characters, as a file's name.
fn say(rt: HostRuntime, text: &[u8]) -> io::Result<()> {
    rt.stderr().write_all(text)
}

// Says the end of a line on a refusal: its number.
fn say_refusal(rt: HostRuntime, refusal: Refusal) -> io::Result<()> {
    eprintln!(rt; " (refusal {})", refusals::number_of(refusal))
}

// Says a refusal's own words, and its number.
fn say_general(rt: HostRuntime, refusal: Refusal) -> io::Result<()> {
    pieces::write_general(&rt.stderr(), refusal)?;
    say_refusal(rt, refusal)
}

// Says what is wrong on a line, and which of several it is, where there are several.
fn say_fault(rt: HostRuntime, fault: Fault) -> io::Result<()> {
    pieces::write_what(&rt.stderr(), fault.what)?;
    if let Some(which) = fault.which {
        eprint!(rt; " {which}")?;
    }
    eprint!(rt; " ")?;
    pieces::write_trouble(&rt.stderr(), fault.trouble)
}

// Says the start of a line on what was asked with a number: SUBJECT NUMBER:
fn say_subject(rt: HostRuntime, subject: &[u8], number: u64) -> io::Result<()> {
    say(rt, subject)?;
    eprint!(rt; " {number}: ")
}

// Says the start of a line on a line of a file: FILE line N:
fn say_line(rt: HostRuntime, file: &[u8], line: usize) -> io::Result<()> {
    say(rt, file)?;
    eprint!(rt; " line {line}: ")
}

// FILE line N: what is wrong (refusal n)
pub fn refused(
    rt: HostRuntime,
    file: &[u8],
    line: usize,
    fault: Fault,
    refusal: Refusal,
) -> io::Result<()> {
    say_line(rt, file, line)?;
    say_fault(rt, fault)?;
    say_refusal(rt, refusal)
}

// FILE line N: the refusal's own words (refusal n)
pub fn refused_plainly(
    rt: HostRuntime,
    file: &[u8],
    line: usize,
    refusal: Refusal,
) -> io::Result<()> {
    say_line(rt, file, line)?;
    say_general(rt, refusal)
}

// SUBJECT NUMBER: words (refusal n), for what was asked with a number.
pub fn refused_number(
    rt: HostRuntime,
    subject: &[u8],
    number: u64,
    refusal: Refusal,
) -> io::Result<()> {
    say_subject(rt, subject, number)?;
    say_general(rt, refusal)
}

// month NUMBER: words (refusal n), for a month that the clock refuses.
pub fn refused_month(rt: HostRuntime, month: u32, refusal: Refusal) -> io::Result<()> {
    refused_number(rt, b"month", month as u64, refusal)
}

// SUBJECT NUMBER: more than so many high and low waters (refusal 10), for a month or a year of which the clock refuses the turns.
pub fn refused_turns(
    rt: HostRuntime,
    subject: &[u8],
    number: u64,
    room: usize,
    refusal: Refusal,
) -> io::Result<()> {
    if !matters::of_room(refusal) {
        return refused_number(rt, subject, number, refusal);
    }
    say_subject(rt, subject, number)?;
    eprint!(rt; "more than {room} high and low waters, the most that it has room for")?;
    say_refusal(rt, refusal)
}

// --strides WORD: words (refusal n), for strides that the clock refuses.
pub fn refused_strides(rt: HostRuntime, word: &[u8], refusal: Refusal) -> io::Result<()> {
    eprint!(rt; "--strides ")?;
    say(rt, word)?;
    eprint!(rt; ": ")?;
    say_general(rt, refusal)
}

// day NUMBER: MONTH has so many days (refusal n), for a day that the clock refuses; the general words where the month has that day.
pub fn refused_day(rt: HostRuntime, month: Month, day: u32, refusal: Refusal) -> io::Result<()> {
    if !matters::lacks_day(refusal, month, day) {
        return refused_number(rt, b"day", day as u64, refusal);
    }
    let days = calendar::month_days(month.year, month.month);
    eprint!(rt; "day {day}: {month} has {days} days")?;
    say_refusal(rt, refusal)
}

// step NUMBER: a step is 1 to 1440 minutes (refusal n), for a step out of range.
pub fn refused_step(rt: HostRuntime, step: u32, refusal: Refusal) -> io::Result<()> {
    eprint!(rt; "step {step}: a step is 1 to {STEP} minutes")?;
    say_refusal(rt, refusal)
}

// count NUMBER: the series runs past the end of MONTH, whose last minute is N (refusal n)
pub fn refused_count(
    rt: HostRuntime,
    month: Month,
    count: u32,
    refusal: Refusal,
) -> io::Result<()> {
    let last = calendar::month_minutes(month.year, month.month);
    eprint!(rt;
        "count {count}: the series runs past the end of {month}, whose last minute is {last}"
    )?;
    say_refusal(rt, refusal)
}

// FILE line N: it is no booking.
pub fn no_booking(rt: HostRuntime, file: &[u8], line: usize) -> io::Result<()> {
    say_line(rt, file, line)?;
    eprintln!(rt; "no booking, DD HH:MM is expected")
}

// Says the day and the time of a booking on a line of a text, which are its first eight bytes.
fn say_booking(rt: HostRuntime, text: &[u8], line: usize) -> io::Result<()> {
    if 0 < line {
        say(rt, columns::part(textlines::line_of(text, line - 1), 0, 8))?;
    }
    Ok(())
}

// FILE line N: DD HH:MM is outside MONTH (refusal n), for a booking of the file's text that the clock refuses, on the line that is the place.
pub fn refused_booking(
    rt: HostRuntime,
    file: &[u8],
    text: &[u8],
    month: Month,
    refused: Refused,
) -> io::Result<()> {
    let line = refused.place;
    let refusal = refused.refusal;
    if !matters::of_minutes(refusal) {
        return refused_plainly(rt, file, line, refusal);
    }
    say_line(rt, file, line)?;
    say_booking(rt, text, line)?;
    eprint!(rt; " is outside {month}")?;
    say_refusal(rt, refusal)
}

// Which hours the cards of a number have.
fn hours_of(number: usize) -> &'static str {
    if number == 1 {
        "01:00 to 12:00"
    } else {
        "13:00 to 24:00"
    }
}

// card N of DAY MONTH, its hours: words, in hundredths of the unit (refusal n), for the card at a place of a month's hourly cards.
fn refused_card(rt: HostRuntime, month: Month, refused: Refused) -> io::Result<()> {
    let number = matters::card_number(refused.place);
    let day = matters::card_day(refused.place);
    let hours = hours_of(number);
    eprint!(rt; "card {number} of {day} {month}, {hours}: ")?;
    pieces::write_general(&rt.stderr(), refused.refusal)?;
    eprint!(rt; ", in hundredths of the unit")?;
    say_refusal(rt, refused.refusal)
}

// What the clock refuses of a month's hourly cards: the card at a place, or their station number.
pub fn refused_hourly(
    rt: HostRuntime,
    month: Month,
    station: u32,
    refused: Refused,
) -> io::Result<()> {
    if 0 < refused.place {
        return refused_card(rt, month, refused);
    }
    refused_number(rt, b"station", station as u64, refused.refusal)
}

// FILE: why the system refused it.
pub fn failed(rt: HostRuntime, file: &[u8], error: io::Error) -> io::Result<()> {
    say(rt, file)?;
    eprint!(rt; ": ")?;
    pieces::write_error(&rt.stderr(), error)?;
    eprintln!(rt)
}

// FILE: it is too large.
pub fn too_large(rt: HostRuntime, file: &[u8]) -> io::Result<()> {
    say(rt, file)?;
    eprintln!(rt; ": larger than 65536 bytes")
}

// The command line is longer than the program can take.
pub fn too_long(rt: HostRuntime) -> io::Result<()> {
    eprintln!(rt; "the command line is too long, try --help")
}

// WORD: what is wrong with it, try --help
pub fn wrong_word(rt: HostRuntime, word: &[u8], wrong: Wrong) -> io::Result<()> {
    say(rt, word)?;
    pieces::write_wrong(&rt.stderr(), wrong)?;
    eprintln!(rt; ", try --help")
}

// The refusals, in the order of their numbers.
static REFUSALS: [Refusal; 19] = [
    Refusal::BadLine,
    Refusal::Malformed,
    Refusal::OutOfRange,
    Refusal::BadName,
    Refusal::Missing,
    Refusal::TooMany,
    Refusal::Ended,
    Refusal::BadDate,
    Refusal::BadMinutes,
    Refusal::TooManyTurns,
    Refusal::TooLarge,
    Refusal::NoTable,
    Refusal::NoStation,
    Refusal::NoMonth,
    Refusal::UnequalBuffers,
    Refusal::BadStationNumber,
    Refusal::BadHeight,
    Refusal::ShortBuffer,
    Refusal::BadStride,
];

// The list of all refusals, on standard output: a line each, its number and words.
pub fn list_refusals(rt: HostRuntime) -> io::Result<()> {
    for refusal in &REFUSALS {
        print!(rt; "{} ", refusals::number_of(*refusal))?;
        pieces::write_general(&rt, *refusal)?;
        println!(rt)?;
    }
    Ok(())
}
