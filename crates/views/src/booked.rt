// The bookings of a file, answered together.
ghost use Rattle.clock.specs.View.{Made};

use crate::View;
use daybook::reading::{FILE, PLACES};
use daybook::{answered, reading};
use output::pages::Page;
use std::io;

// bookings YEAR MONTH FILE: the file's lines, which are the first bytes of a buffer, each with the height at its time. The heights are had in
// one call of the clock.
pub fn bookings(
    rt: HostRuntime,
    view: &View,
    name: &[u8],
    buffer: &[u8; FILE],
    bytes: usize,
) -> io::Result<()>
    requires { Made view.now.clock }
{
    let text = columns::part(buffer, 0, bytes);
    let mut minutes = [0u32; PLACES];
    let count = match reading::read(buffer, bytes, &mut minutes) {
        Ok(count) => count,
        Err(none) => return messages::no_booking(rt, name, none.line),
    };
    let mut places = [0i64; PLACES];
    let heights = &mut places[..count];
    if let Err(refused) = clock::bookings(view.clock, &minutes[..count], heights) {
        return messages::refused_booking(rt, name, text, view.month(), refused);
    }
    let mut page = Page::new();
    answered::put_sheet(&rt, &mut page, view.face, view.date, text, heights)?;
    page.flush(&rt)
}
