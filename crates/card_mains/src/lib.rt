// The cards of part 3, each by itself: a constituent card, and a card of up to three satellites.
#![tactic(auto)]

pub mod mains; // a constituent card
mod satellitefields; // one satellite's fields
pub mod satellitecard; // a satellite card
