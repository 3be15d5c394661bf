//! The bench: a drawing with its run sheet, and the printed lines of their run one by one.
#![tactic(auto)]

pub mod ending;
pub mod transcript;
