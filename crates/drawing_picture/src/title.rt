// What a drawing says on its face: the station, the date, the times' zone, the heights' unit, and what it stands on.

use drawing_svg::svg;
use output::pages::Page;
use page::face;
use page::face::{Face, Ground};
use page::shown::Date;
use std::io;

// The width of a drawing, and where its text and its plots begin; ten units make a pixel.
const WIDTH: u64 = 9_700;

const LEFT: u64 = 700;

// Begins a drawing of a height, with its white ground.
pub fn put_start(rt: &impl Print, page: &mut Page, height: u64) -> io::Result<()> {
    svg::put_form(
        rt,
        page,
        b"<svg xmlns=\"http://www.w3.org/2000/svg\" width=\"@\" height=\"$\" viewBox=\"0 0 ~ ^\" font-family=\"Helvetica, Arial, sans-serif\" fill=\"#111\">\n<rect width=\"100%\" height=\"100%\" fill=\"#fff\"/>\n",
        &[WIDTH / 10, height / 10, WIDTH, height],
    )
}

// Puts the day, where it is not 0, the month, where it is not 0, and the year.
fn put_date(rt: &impl Print, page: &mut Page, date: Date) -> io::Result<()> {
    if date.day != 0 {
        svg::put_form(rt, page, b"@ ", &[date.day as u64])?;
    }
    face::put_month(rt, page, date)
}

// Puts what the times are: GMT, or the station file's own zone.
fn put_zone(rt: &impl Print, page: &mut Page, zone: &[u8]) -> io::Result<()> {
    if face::is_greenwich(zone) {
        return page.put_bytes(rt, b"GMT");
    }
    svg::put_escaped(rt, page, face::trimmed(zone))?;
    page.put_bytes(rt, b" (the station file's zone)")
}

// Puts the title that a reader of the file sees: the station and when.
fn put_title(rt: &impl Print, page: &mut Page, name: &[u8], date: Date) -> io::Result<()> {
    page.put_bytes(rt, b"<title>")?;
    svg::put_escaped(rt, page, name)?;
    page.put_bytes(rt, b", ")?;
    put_date(rt, page, date)?;
    page.put_bytes(rt, b"</title>\n")
}

// Puts the head of a drawing: its title, the station's name, large, and the date, the times' zone and the heights' unit.
pub fn put_head(rt: &impl Print, page: &mut Page, face: Face, date: Date) -> io::Result<()> {
    let name = face::trimmed(face.name);
    put_title(rt, page, name, date)?;
    svg::put_form(
        rt,
        page,
        b"<text x=\"@\" y=\"400\" font-size=\"260\" font-weight=\"bold\">",
        &[LEFT],
    )?;
    svg::put_escaped(rt, page, name)?;
    svg::put_form(
        rt,
        page,
        b"</text>\n<text x=\"@\" y=\"660\" font-size=\"160\">",
        &[LEFT],
    )?;
    put_date(rt, page, date)?;
    page.put_bytes(rt, b"; times ")?;
    put_zone(rt, page, face.zone)?;
    page.put_bytes(rt, b"; heights in ")?;
    svg::put_escaped(rt, page, face.unit)?;
    page.put_bytes(rt, b"</text>\n")
}

// Puts how the drawing is read, what it stands on, and its end.
pub fn put_foot(
    rt: &impl Print,
    page: &mut Page,
    top: u64,
    key: &[u8],
    ground: Ground,
) -> io::Result<()> {
    svg::put_form(
        rt,
        page,
        b"<text x=\"@\" y=\"$\" font-size=\"115\" fill=\"#444\">",
        &[LEFT, top],
    )?;
    svg::put_escaped(rt, page, key)?;
    svg::put_form(rt, page, b"<tspan x=\"@\" dy=\"170\">", &[LEFT])?;
    face::put_ground(rt, page, ground)?;
    page.put_bytes(rt, b"</tspan></text>\n</svg>\n")
}
