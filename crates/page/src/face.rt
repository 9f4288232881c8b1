// What every sheet says on its face, and the pieces of text that all views share, put on a page.
ghost use Rattle.std.specs.Prelude.{◌&&◌, ◌≡◌, eqb};
ghost use Rattle.station.specs.Strides.{usual_strides};

use crate::shown::Date;
pub use digits::texts::{is_greenwich, trimmed};
use digits::{dates, texts};
use output::pages::Page;
use station::strides::Strides;
use std::io;

// What a sheet stands on: the station's latitude in minutes, north positive, how many constituents it has, its strides, and the CRC-32 of the
// card file and of the station file.
#[derive(Clone, Copy)]
pub struct Ground {
    pub latitude: i32,
    pub constituents: usize,
    pub strides: Strides,
    pub cards: u32,
    pub station: u32,
}

// What every sheet says on its face: the station's name and its times' zone, both maybe with blanks behind them, the unit of its heights, and
// what the sheet stands on.
#[derive(Clone, Copy)]
pub struct Face<'a> {
    pub name: &'a [u8],
    pub zone: &'a [u8],
    pub unit: &'a [u8],
    pub ground: Ground,
}

// The face of a station's sheets.
pub fn face_of<'a>(name: &'a [u8], zone: &'a [u8], unit: &'a [u8], ground: Ground) -> Face<'a>
    ensures { result.ground ≡ ground }
{
    Face {
        name,
        zone,
        unit,
        ground,
    }
}

// Puts a month's name, or its number where it has none.
pub fn put_month_name(rt: &impl Print, page: &mut Page, month: u32) -> io::Result<()> {
    let name = dates::month_name(month);
    let word = texts::trimmed(&name);
    if word.len() == 0 {
        return page.put_number(rt, month as u64);
    }
    page.put_bytes(rt, word)
}

// Puts a month and its year, as July 1976; the year alone where the whole year is meant.
pub fn put_month(rt: &impl Print, page: &mut Page, date: Date) -> io::Result<()> {
    if date.month != 0 {
        put_month_name(rt, page, date.month)?;
        page.put(rt, b' ')?;
    }
    page.put_number(rt, date.year as u64)
}

// Puts a station's name and a comma, behind which a view puts its month or day.
pub fn put_name(rt: &impl Print, page: &mut Page, face: Face) -> io::Result<()> {
    page.put_bytes(rt, texts::trimmed(face.name))?;
    page.put_bytes(rt, b", ")
}

// Puts a station's name and the month or the year, on a line.
pub fn put_title(rt: &impl Print, page: &mut Page, face: Face, date: Date) -> io::Result<()> {
    put_name(rt, page, face)?;
    put_month(rt, page, date)?;
    page.put(rt, b'\n')
}

// Puts a latitude, as 48 deg 25' N.
fn put_latitude(rt: &impl Print, page: &mut Page, latitude: i32) -> io::Result<()> {
    let size = angles::size(latitude as i64);
    page.put_number(rt, size / 60)?;
    page.put_bytes(rt, &digits::latitude_end(size, latitude < 0))
}

// Puts the eight hexadecimal digits of a checksum, in lower case.
fn put_hex8(rt: &impl Print, page: &mut Page, sum: u32) -> io::Result<()> {
    for k in 0..8u32 {
        let digit = sum >> (28 - 4 * k) & 15;
        page.put(rt, b"0123456789abcdef"[digit as usize])?;
    }
    Ok(())
}

// Puts the latitude and the number of constituents.
fn put_station(rt: &impl Print, page: &mut Page, ground: Ground) -> io::Result<()> {
    page.put_bytes(rt, b"latitude ")?;
    put_latitude(rt, page, ground.latitude)?;
    page.put_bytes(rt, b", ")?;
    page.put_number(rt, ground.constituents as u64)?;
    page.put_bytes(rt, b" constituents")
}

// Whether strides are the usual ones, of which no sheet speaks.
fn are_usual(strides: Strides) -> bool
    ensures { result ≡ (eqb strides.semidiurnal usual_strides.semidiurnal && (eqb strides.mixed usual_strides.mixed && eqb strides.diurnal usual_strides.diurnal)) }
{
    strides.semidiurnal == 180 && strides.mixed == 30 && strides.diurnal == 360
}

// Puts three lengths, as 20,30,360.
fn put_lengths(rt: &impl Print, page: &mut Page, strides: Strides) -> io::Result<()> {
    page.put_number(rt, strides.semidiurnal as u64)?;
    page.put(rt, b',')?;
    page.put_number(rt, strides.mixed as u64)?;
    page.put(rt, b',')?;
    page.put_number(rt, strides.diurnal as u64)
}

// Puts a station's strides where they are not the usual ones: two clocks that differ must show it.
fn put_strides(rt: &impl Print, page: &mut Page, strides: Strides) -> io::Result<()> {
    if are_usual(strides) {
        return Ok(());
    }
    page.put_bytes(rt, b", strides ")?;
    put_lengths(rt, page, strides)?;
    page.put_bytes(rt, b" min")
}

// Puts the checksums of the two files.
fn put_sums(rt: &impl Print, page: &mut Page, ground: Ground) -> io::Result<()> {
    page.put_bytes(rt, b"; CRC-32 of the cards ")?;
    put_hex8(rt, page, ground.cards)?;
    page.put_bytes(rt, b", of the station ")?;
    put_hex8(rt, page, ground.station)
}

// Puts what a sheet stands on: latitude, constituents, strides that are not the usual ones, and the two checksums, on one line with no line end.
pub fn put_ground(rt: &impl Print, page: &mut Page, ground: Ground) -> io::Result<()> {
    put_station(rt, page, ground)?;
    put_strides(rt, page, ground.strides)?;
    put_sums(rt, page, ground)
}

// Puts what the times are: GMT, or the station file's own zone.
fn put_zone(rt: &impl Print, page: &mut Page, zone: &[u8]) -> io::Result<()> {
    if texts::is_greenwich(zone) {
        return page.put_bytes(rt, b"GMT");
    }
    page.put_bytes(rt, texts::trimmed(zone))?;
    page.put_bytes(rt, b" (the station file's zone)")
}

// Puts the unit of the heights and the zone of the times, on one line with no line end.
pub fn put_scales(rt: &impl Print, page: &mut Page, face: Face) -> io::Result<()> {
    page.put_bytes(rt, b"heights in ")?;
    page.put_bytes(rt, face.unit)?;
    page.put_bytes(rt, b", times ")?;
    put_zone(rt, page, face.zone)
}

// Puts the scales and what a sheet stands on, on two lines, the second with no line end.
pub fn put_stand(rt: &impl Print, page: &mut Page, face: Face) -> io::Result<()> {
    put_scales(rt, page, face)?;
    page.put(rt, b'\n')?;
    put_ground(rt, page, face.ground)
}
