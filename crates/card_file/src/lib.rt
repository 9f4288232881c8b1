// The whole card file: its four parts in order, then that every frequency is defined; accepted whole, or refused with a number and a line.
#![tactic(auto)]

mod defined; // the last check: every frequency has its definition
pub mod reader; // the reader
pub mod counts; // how many of each an accepted file has
