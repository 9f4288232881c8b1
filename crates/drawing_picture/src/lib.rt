// What is drawn: a day, a month in rows of a week, or a year as a band, as SVG on a page, from heights and turns that the clock gave.
#![tactic(auto)]

mod axes; // a plot's frame, and its hours or days
mod curve; // a plot's curve
mod labels; // a turn's mark and label
mod levels; // the height axis
mod marks; // a plot's turns
pub mod picture; // the plots of a day and of a month
pub mod title; // a drawing's head and foot
pub mod yearband; // the plot of a year
