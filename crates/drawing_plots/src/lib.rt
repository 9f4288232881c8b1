// The geometry of a drawing, in whole numbers: ten units make a pixel.
#![tactic(auto)]

pub mod bands; // from a day's lowest to its highest water
pub mod plots; // where plots stand, and which minutes are theirs
pub mod scale; // from heights and minutes to places
pub mod sizes; // sizes of a plot
pub mod spots; // where things stand on a plot
