//! Items and expressions of a field, with parts told by name.
#![tactic(auto)]

pub mod expression;
pub mod item;
pub mod smallest;
