// What each call of the clock asks, returns and leaves, by the flags that say what is there: 01's definitions over a state, their laws, and
// the questions' code. `clock` has the calls.
#![tactic(auto)]

pub mod asked; // heights, series, turns
pub mod reasons; // why a series is refused
pub mod settings; // stations, dates, months
pub mod annual; // a year's sheet
pub mod bookings; // a list of minutes
pub mod hourcards; // hourly cards
