// Says what a station file comes to. Standard input, of up to 65,536 bytes, is a line with the size of a table's names in bytes, the names, five bytes
// each, and the station file. It writes the checksums of both, the station's name and time zone, and the latitude and the records, or the refusal.
#![tactic(auto)]

ghost use Rattle.card.specs.inner.Fields.{IsNatural};

use card::faults::What;
use card::formats::NumberField;
use card::lines::Misread;
use card::natural_field;
use fields::Format;
use files::checksum;
use limits::RECORDS;
use refusals::Refused;
use station::records::Rows;
use station_file::stationfile::StationCards;
use station_file::{stationcards, stationfile};
use std::io;

// A text as it stands.
fn put(rt: &impl Print, text: &[u8]) -> io::Result<()> {
    rt.write_all(text)
}

// A number in decimal.
fn put_number(rt: &impl Print, n: u64) -> io::Result<()> {
    rt.print(n)
}

// PLACE AMPLITUDE PHASE
fn put_record(rt: &impl Print, place: u8, amplitude: u32, phase: u32) -> io::Result<()> {
    put_number(rt, u64::from(place))?;
    put(rt, b" ")?;
    put_number(rt, u64::from(amplitude))?;
    put(rt, b" ")?;
    put_number(rt, u64::from(phase))?;
    put(rt, b"\n")
}

// The records, a line each.
fn put_records(rt: &impl Print, count: usize, rows: Rows) -> io::Result<()> {
    for k in 0..count.min(RECORDS) {
        put_record(rt, rows.places[k], rows.amplitudes[k], rows.phases[k])?;
    }
    Ok(())
}

// latitude MINUTES
fn put_latitude(rt: &impl Print, latitude: i32) -> io::Result<()> {
    put(rt, b"latitude ")?;
    if latitude < 0 {
        put(rt, b"-")?;
    }
    put_number(rt, angles::size(i64::from(latitude)))?;
    put(rt, b"\n")
}

// refused NUMBER LINE
fn put_refused(rt: &impl Print, refused: Refused) -> io::Result<()> {
    put(rt, b"refused ")?;
    put_number(rt, u64::from(refusals::number_of(refused.refusal)))?;
    put(rt, b" ")?;
    put_number(rt, refused.place as u64)?;
    put(rt, b"\n")
}

// The latitude and the records, or the refusal.
fn put_station(rt: &impl Print, read: Result<StationCards, Misread>) -> io::Result<()> {
    match read {
        Ok(cards) => {
            put_latitude(rt, cards.latitude)?;
            put_records(rt, cards.count, cards.rows)
        }
        Err(misread) => put_refused(rt, stationfile::refusal_of(misread)),
    }
}

// A word, a text, and LF.
fn put_text<'a>(rt: &impl Print, word: &'a [u8], text: &'a [u8]) -> io::Result<()> {
    put(rt, word)?;
    put(rt, text)?;
    put(rt, b"\n")
}

// Checksums, name and time zone.
fn put_face<'a>(rt: &impl Print, names: &'a [u8], station: &'a [u8]) -> io::Result<()> {
    put(rt, b"crc ")?;
    put_number(rt, u64::from(checksum::crc32(names)))?;
    put(rt, b" ")?;
    put_number(rt, u64::from(checksum::crc32(station)))?;
    put(rt, b"\n")?;
    put_text(rt, b"name ", stationcards::station_name(station))?;
    put_text(rt, b"zone ", stationcards::time_zone(station))
}

// The size of the names, on the first line.
fn size_field() -> NumberField
    ensures { IsNatural result }
{
    NumberField {
        what: What::File,
        which: None,
        from: 0,
        width: 8,
        format: Format::Whole,
        low: 0,
        high: 65_536,
    }
}

// What the input comes to; nothing where it has no size.
fn put_input(rt: &impl Print, input: &[u8]) -> io::Result<()> {
    let rest = columns::rest_lines(input);
    match natural_field(columns::first_line(input), size_field()) {
        Ok(bytes) => {
            let k = bytes as usize;
            let names = columns::part(rest, 0, k);
            let station = columns::part(rest, k, 65_536);
            put_face(rt, names, station)?;
            put_station(rt, stationfile::read_station(station, names, k / 5))
        }
        Err(_) => Ok(()),
    }
}

fn main(rt: HostRuntime) -> io::Result<()> {
    let mut file = [0u8; 65536];
    let n = files::read_full(&mut rt.stdin(), &mut file);
    put_input(&rt, &file[..n])
}
