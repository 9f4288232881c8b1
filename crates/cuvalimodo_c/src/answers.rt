// What the calls say, in numbers: the structs that cross to other languages.
ghost use Rattle.std.specs.Prelude.{◌≡◌};
ghost use Rattle.refusals.specs.Outcome.{outcome_of};
ghost use Rattle.hourly.specs.Answers.{cards_returned};
ghost use Rattle.clock.specs.Returned.{height_returned, turns_returned};
ghost use Rattle.cuvalimodo_c.specs.Answers.{verdict_returned, reading_returned, turnings_returned, cards_told, Plain, PlainReading, PlainTurnings, PlainCards};

use refusals::{Answer, Refused};
use turns::Summary;

// What a call says: number 0 where it is accepted, else the refusal's number and place.
#[repr(C)]
#[derive(Clone, Copy)]
pub struct Verdict {
    pub number: u32,
    pub place: usize,
}

// A height, with number 0; or the refusal's number and place.
#[repr(C)]
#[derive(Clone, Copy)]
pub struct Reading {
    pub number: u32,
    pub place: usize,
    pub height: i64,
}

// What a search for turns comes to: how many, and whether the first is high, with number 0; or the refusal's number and place.
#[repr(C)]
#[derive(Clone, Copy)]
pub struct Turnings {
    pub number: u32,
    pub place: usize,
    pub count: usize,
    pub high: bool,
}

// How many bytes a month's hourly cards take, with number 0; or the refusal's number and place.
#[repr(C)]
#[derive(Clone, Copy)]
pub struct Cards {
    pub number: u32,
    pub place: usize,
    pub bytes: usize,
}

// The words of a refusal, with zeros behind them: a C string.
#[repr(C)]
#[derive(Clone, Copy)]
pub struct Text {
    pub text: [u8; 64],
}

// An answer in numbers.
pub fn told(answer: Answer) -> Verdict
    ensures { (verdict_returned result ≡ outcome_of answer) × Plain result }
{
    match answer {
        Ok(_) => Verdict {
            number: 0,
            place: 0,
        },
        Err(refused) => Verdict {
            number: refusals::number_of(refused.refusal),
            place: refused.place,
        },
    }
}

// A height's answer in numbers.
pub fn told_height(answer: Result<i64, Refused>) -> Reading
    ensures { (reading_returned result ≡ height_returned answer) × PlainReading result }
{
    match answer {
        Ok(height) => Reading {
            number: 0,
            place: 0,
            height,
        },
        Err(refused) => Reading {
            number: refusals::number_of(refused.refusal),
            place: refused.place,
            height: 0,
        },
    }
}

// A search's answer in numbers.
pub fn told_turns(answer: Result<Summary, Refused>) -> Turnings
    ensures { (turnings_returned result ≡ turns_returned answer) × PlainTurnings result }
{
    match answer {
        Ok(found) => Turnings {
            number: 0,
            place: 0,
            count: found.count,
            high: found.high,
        },
        Err(refused) => Turnings {
            number: refusals::number_of(refused.refusal),
            place: refused.place,
            count: 0,
            high: false,
        },
    }
}

// The answer of hourly cards in numbers.
pub fn told_cards(answer: Result<usize, Refused>) -> Cards
    ensures { (cards_told result ≡ cards_returned answer) × PlainCards result }
{
    match answer {
        Ok(bytes) => Cards {
            number: 0,
            place: 0,
            bytes,
        },
        Err(refused) => Cards {
            number: refusals::number_of(refused.refusal),
            place: refused.place,
            bytes: 0,
        },
    }
}
