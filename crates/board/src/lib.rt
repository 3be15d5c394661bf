//! The board: a circuit with the words that its memories have and hold, stepped over any device.
#![tactic(auto)]

pub mod boards;
pub mod load;
pub mod plan;
pub mod step;
pub mod trace;
