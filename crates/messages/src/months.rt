// A month as it is said: its name and its year, as February 2026.
use digits::{dates, texts};
use std::fmt;
use std::fmt::Write;

// A month of a year.
#[derive(Clone, Copy, PartialEq, Eq)]
pub struct Month {
    pub year: u32,
    pub month: u32,
}

impl fmt::Display for Month {
    fn fmt<W: fmt::Write>(&self, f: &mut fmt::Formatter<W>) -> fmt::Result {
        let name = dates::month_name(self.month);
        for byte in texts::trimmed(&name) {
            f.write_char(char::from(*byte))?;
        }
        write!(f, " {}", self.year)
    }
}
