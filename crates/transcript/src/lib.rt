// A replay's two ends: the calls of a script, read whole from standard input, and the lines that answer them.
#![tactic(auto)]

pub mod input; // lines and counts of bytes
pub mod reading; // a call, read whole
pub mod answers; // the lines that answer
