//! Reads a drawing's text: its circuit, or why it is refused and where.
#![tactic(auto)]

pub mod reading;
