// What all sheets and drawings share: what they show, what they say on their face, and their figures.
#![tactic(auto)]

pub mod face; // the station, the scales, what a sheet stands on
pub mod figures; // numbers, heights and times in their columns
pub mod shown; // a date, a month's turns, a year's
