// The station file in the columns of 001, section 3.3: its records for the clock, and its name and time zone for a sheet's face.
#![tactic(auto)]

mod formats; // the columns of its two cards
mod stationfields; // their fields
pub mod stationcards; // the name and the time zone
pub mod stationfile; // the file, card by card
pub mod stationfaults; // what is wrong with a station that the clock refuses
