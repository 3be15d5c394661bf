//! Words of the board: whole numbers of 31 bits.
#![tactic(auto)]

pub mod functions;
pub mod laws;
pub mod range;
pub mod ranges;
pub mod value;
pub mod width;
pub mod widths;
pub mod words;
