//! The sections of a drawing's text: macros, list and parts.
#![tactic(auto)]

pub mod rows;
