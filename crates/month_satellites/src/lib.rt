// A main constituent's nodal sums X and Y, from its satellites and the latitude.
#![tactic(auto)]

pub mod latitude; // the latitude factors G
pub mod satellites; // a main's sums
