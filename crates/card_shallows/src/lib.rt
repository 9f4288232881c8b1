// Part 4 of the card file: the shallow-water constituents, each of one to four parts.
#![tactic(auto)]

mod coefficients; // a coefficient
mod parts; // a card's parts
mod shallowcard; // a card
pub mod shallows; // the reader
