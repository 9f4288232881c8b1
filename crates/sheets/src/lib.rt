// The sheets, put on a page from heights and turns that the clock gave.
#![tactic(auto)]

pub mod csv; // heights and turns for other programs
mod daylines; // days with their high and low waters
pub mod daysheet; // the day at the berth
pub mod monthsheet; // the month at the berth
pub mod yearsheet; // the year for the wall
