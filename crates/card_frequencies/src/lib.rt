// Parts 1 and 2 of the card file: the frequencies with their names, and the two longitude cards.
#![tactic(auto)]

pub mod frequencies; // part 1
pub mod longitudes; // part 2
