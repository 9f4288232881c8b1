// The month's angles: the five longitudes on a day, and the argument V of a constituent.
#![tactic(auto)]

use limits::MAINS;

pub mod astronomy; // longitudes on a day
pub mod arguments; // V of a main and of a shallow-water constituent

// What is kept of every main, in rows of three: its V, and its sums X and Y.
pub const KEPT: usize = 3 * MAINS;
