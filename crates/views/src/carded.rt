// The month's hourly cards for the harbour office.
ghost use Rattle.clock.specs.View.{Made};

use crate::View;
use hourly::LONGEST;
use std::io;

// hourly YEAR MONTH STATION: the cards alone, under a station number.
pub fn hourly(rt: HostRuntime, view: &View, station: u32) -> io::Result<()>
    requires { Made view.now.clock }
{
    let mut cards = [0u8; LONGEST];
    match clock::hourly(view.clock, station, &mut cards) {
        Ok(count) => {
            output::flush(&rt, &cards, count)?;
            Ok(())
        }
        Err(refused) => messages::refused_hourly(rt, view.month(), station, refused),
    }
}
