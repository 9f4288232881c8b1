// The file of bookings: on each line a day and a time of the month, and a vessel's name. It is read as minutes of the month, and answered line by line.
#![tactic(auto)]

pub mod answered; // the lines with their heights
mod booking; // one line
pub mod reading; // all lines
