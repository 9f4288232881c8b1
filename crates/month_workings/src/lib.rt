// V and the nodal correction of what stands at a place of the table, each main worked out only once.
#![tactic(auto)]

pub mod workings; // the mains
pub mod worked; // what stands at a place
