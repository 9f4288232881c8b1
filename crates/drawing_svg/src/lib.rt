// The pieces that an SVG drawing is written of, and text as XML has it.
#![tactic(auto)]

mod markup; // characters, escapes, UTF-8
pub mod svg; // forms with numbers, groups, escaped text
