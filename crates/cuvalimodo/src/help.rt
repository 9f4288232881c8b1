// The help: one screen.
use std::io;

// Its lines: the commands, and the options.
const LINES: [&str; 24] = [
    "Heights of the tide, high and low waters, from constituent cards. Years 1950 to 2049.",
    "",
    "  cuvalimodo month YEAR MONTH                a line a day: high and low waters",
    "  cuvalimodo year YEAR [--csv]               the same for a year, by months; or as CSV",
    "  cuvalimodo day YEAR MONTH DAY [HH:MM]      next high and low water, the day's curve",
    "  cuvalimodo bookings YEAR MONTH FILE        FILE's lines DD HH:MM NAME, with their heights",
    "  cuvalimodo hourly YEAR MONTH STATION       hourly cards, heights in the unit's hundredths",
    "                                             (STATION is the harbour office's, 0 to 99999)",
    "  cuvalimodo heights YEAR MONTH [STEP]       CSV: the whole month, STEP minutes apart (60)",
    "  cuvalimodo series YEAR MONTH DAY HH:MM STEP COUNT",
    "                                             CSV: COUNT heights, STEP minutes apart",
    "  cuvalimodo svg YEAR [MONTH [DAY]]          a drawing of the year, the month or the day",
    "  cuvalimodo refusals                        the numbers of the refusals",
    "",
    "  --cards FILE      the constituent cards (data/standard-cards.txt)",
    "  --station FILE    the station's constituents (data/victoria.txt, the manual's sample)",
    "  --unit WORD       the unit of the station's amplitudes (metres; feet for the sample)",
    "  --strides S,M,D   the station's strides in the search for turns, for semidiurnal, mixed and",
    "                    diurnal tides, each 1 to 720 minutes (180,30,360); no file has them",
    "  --help            this help",
    "",
    "Cards and station are in the columns of Foreman's manual; no file is over 65536 bytes long.",
    "Times are GMT, or those of the zone that the station file names. Each sheet says what it",
    "stands on, with the CRC-32 of both files. Bad input is said in one line on standard error.",
];

// Writes the help.
pub fn write_help(rt: &impl Print) -> io::Result<()> {
    for line in LINES {
        rt.println(line)?;
    }
    Ok(())
}
