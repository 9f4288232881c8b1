// Part 3 of the card file: a constituent card leads to its satellite cards, and the last of these to the next constituent card.
#![tactic(auto)]

pub mod rows; // both cards, read into the table's rows
pub mod constituents; // the two readers, which call each other
