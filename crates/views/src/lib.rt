// The sheets of the month that a clock has prepared, those of a file's bookings in it, and its hourly cards, written on standard output, or the clock's refusal, said; and the sheets of a year.
#![tactic(auto)]

mod booked; // a file's bookings
mod carded; // hourly cards
mod daily; // a day's sheet
mod tabulated; // heights for other programs
mod yearly; // the year's sheet, and its turns for other programs

ghost use Rattle.clock.specs.View.{Made};

pub use booked::bookings;
pub use carded::hourly;
use clock::Clock;
pub use daily::day;
use messages::months::Month;
use output::pages::Page;
use page::face::Face;
use page::shown;
use page::shown::{Date, TURNS, Turns};
use refusals::{Refusal, Refused};
use sheets::monthsheet;
use std::io;
pub use tabulated::{Span, heights, series};
pub use yearly::{year, year_table};

// What is viewed: a clock, the face of its station's sheets, and the date that is asked for.
#[derive(Clone, Copy)]
pub struct View<'a> {
    pub clock: Clock,
    pub face: Face<'a>,
    pub date: Date,
}

impl View<'_> {
    // The month of the date.
    fn month(&self) -> Month {
        Month {
            year: self.date.year,
            month: self.date.month,
        }
    }

    // The turns of the month that the clock has prepared, or its refusal.
    fn turns(&self) -> Result<Turns, Refused>
        requires { Made self.now.clock }
    {
        let last = shown::last_minute(self.date);
        monthturns::turns_of(self.clock, last, self.face.ground.strides)
    }

    // Says that the clock refused the day.
    fn say_day(&self, rt: HostRuntime, refusal: Refusal) -> io::Result<()> {
        messages::refused_day(rt, self.month(), self.date.day, refusal)
    }

    // Says that the clock refused the month's turns.
    fn say_turns(&self, rt: HostRuntime, refusal: Refusal) -> io::Result<()> {
        messages::refused_turns(rt, b"month", self.date.month as u64, TURNS, refusal)
    }
}

// month YEAR MONTH: the high and low waters of each day.
pub fn month(rt: HostRuntime, view: &View) -> io::Result<()>
    requires { Made view.now.clock }
{
    let turns = match view.turns() {
        Ok(turns) => turns,
        Err(refused) => return view.say_turns(rt, refused.refusal),
    };
    let mut page = Page::new();
    monthsheet::put_month(&rt, &mut page, view.face, view.date, turns.lent())?;
    page.flush(&rt)
}
