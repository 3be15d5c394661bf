//! The circuit of a drawing with its parts, and the values that its parts show.
#![tactic(auto)]

pub mod parts;
pub mod values;
pub mod wiring;
