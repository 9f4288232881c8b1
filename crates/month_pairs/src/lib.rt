// Nodal corrections, the pairs X and Y: multiplied for shallow-water constituents, with the sizes that refusal 11 asks for.
#![tactic(auto)]

pub mod pairs; // one pair by another
pub mod nodal; // a shallow-water constituent's pair
