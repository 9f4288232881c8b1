// The tide clock of a berth on the command line: the year's, the month's and the day's high and low waters, a file's bookings, hourly cards, heights for other programs, drawings.
//
// It reads the files, asks the clock, and writes. Every refusal is the library's, and is said in one line on standard error.
#![tactic(auto)]

mod arguments; // the row of words
mod help; // one screen
mod loading; // the files that the words name
mod showing; // what is asked

ghost use Rattle.clock.specs.View.{Made};

use crate::loading::load;
use crate::showing::{asked_date, show};
use card::lines::Misread;
use card_file::reader;
use clock::Clock;
use commandline::{Asked, Request};
use files::checksum;
use messages::matters;
use page::face;
use page::face::{Face, Ground};
use refusals::Refused;
use station::records::Rows;
use station_file::stationfile::StationCards;
use station_file::{stationcards, stationfaults, stationfile};
use std::io;
use views::View;

// The words, and what they ask.
#[derive(Clone, Copy)]
pub struct Asking<'a> {
    pub words: &'a [u8],
    pub request: Request,
}

// The bytes of the card file and of the station file.
#[derive(Clone, Copy)]
struct Lent<'a> {
    cards: &'a [u8],
    station: &'a [u8],
}

impl<'a> Asking<'a> {
    // The name of the card file.
    fn cards_path(&self) -> &'a [u8] {
        commandline::word(self.words, self.request.cards)
    }

    // The name of the station file.
    pub fn station_path(&self) -> &'a [u8] {
        commandline::word(self.words, self.request.station)
    }
}

// The line of the station file on which a record stands, from 1; the latitude's place is 0.
pub fn line_of(place: usize) -> usize {
    place.saturating_add(1)
}

// Says the refusal of the card file, at a line.
fn say_cards(rt: HostRuntime, asking: &Asking, cards: &[u8], refused: Refused) -> io::Result<()> {
    let path = asking.cards_path();
    match reader::check_of(cards) {
        None => messages::refused_plainly(rt, path, refused.place, refused.refusal),
        Some(fault) => messages::refused(rt, path, refused.place, fault, refused.refusal),
    }
}

// Says the clock's refusal of a station that was read: of its strides, or of its latitude or a record, at a line of its file.
fn say_station(rt: HostRuntime, asking: &Asking, rows: Rows, refused: Refused) -> io::Result<()> {
    let refusal = refused.refusal;
    if matters::of_strides(refusal)
        && let Some(at) = asking.request.lengths
    {
        return messages::refused_strides(rt, commandline::word(asking.words, at), refusal);
    }
    let fault = stationfaults::station_fault(refusal, refused.place, rows);
    let line = line_of(refused.place);
    messages::refused(rt, asking.station_path(), line, fault, refusal)
}

// What the sheets of a station say on their face: what was read of it, its strides, and the two files' checksums.
fn face_of<'a>(asking: &Asking<'a>, lent: Lent<'a>, read: &StationCards) -> Face<'a> {
    face::face_of(
        stationcards::station_name(lent.station),
        stationcards::time_zone(lent.station),
        commandline::word(asking.words, asking.request.unit),
        Ground {
            latitude: read.latitude,
            constituents: read.count,
            strides: asking.request.strides,
            cards: checksum::crc32(lent.cards),
            station: checksum::crc32(lent.station),
        },
    )
}

// The station file's cards, by the names of the clock's table.
fn station_cards(clock: Clock, station: &[u8]) -> Result<StationCards, Misread>
    requires { Made clock }
{
    let names = clock::names(clock);
    stationfile::read_station(station, &names.bytes, names.count)
}

// The card file goes to a clock, and then the station file, by the names of the clock's table; then what is asked is shown. What is refused is
// said.
fn with_files(rt: HostRuntime, asking: &Asking, lent: Lent) -> io::Result<()> {
    let tabled = clock::load_cards(clock::new(), lent.cards);
    if let Err(refused) = tabled.answer {
        return say_cards(rt, asking, lent.cards, refused);
    }
    let read = match station_cards(tabled.clock, lent.station) {
        Ok(read) => read,
        Err(misread) => {
            let path = asking.station_path();
            let refused = stationfile::refusal_of(misread);
            return messages::refused(rt, path, misread.line, misread.fault, refused.refusal);
        }
    };
    let strides = asking.request.strides;
    let placed = clock::place_station(tabled.clock, read.latitude, strides, read.count, read.rows);
    if let Err(refused) = placed.answer {
        return say_station(rt, asking, read.rows, refused);
    }
    let view = View {
        clock: placed.clock,
        face: face_of(asking, lent, &read),
        date: asked_date(asking.request.asked),
    };
    show(rt, &view, asking)
}

// Reads the two files, and shows what is asked.
fn load_files(rt: HostRuntime, asking: &Asking) -> io::Result<()> {
    let mut cards = [0u8; 65536];
    let Some(cards_length) = load(rt, asking.words, asking.request.cards, &mut cards)? else {
        return Ok(());
    };
    let mut station = [0u8; 65536];
    let Some(station_length) = load(rt, asking.words, asking.request.station, &mut station)? else {
        return Ok(());
    };
    let lent = Lent {
        cards: columns::part(&cards, 0, cards_length),
        station: columns::part(&station, 0, station_length),
    };
    with_files(rt, asking, lent)
}

// What is asked, of the words.
fn run(rt: HostRuntime, words: &[u8]) -> io::Result<()> {
    let request = match commandline::parse(words) {
        Ok(request) => request,
        Err(wrong) => {
            return messages::wrong_word(rt, commandline::word(words, wrong.start), wrong.wrong);
        }
    };
    match request.asked {
        Asked::Help => help::write_help(&rt),
        Asked::Refusals => messages::list_refusals(rt),
        _ => load_files(rt, &Asking { words, request }),
    }
}

fn main(rt: HostRuntime) -> io::Result<()> {
    let mut words = [0u8; 4096];
    let end = arguments::put_words(&rt, &mut words);
    if words.len() <= end {
        return messages::too_long(rt);
    }
    run(rt, columns::part(&words, 0, end))
}
