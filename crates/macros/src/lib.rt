//! Macros: their uses in texts, the order in which they build on each other, and texts with all uses put in.
#![tactic(auto)]

pub mod expand;
mod needs;
mod pieces;
pub mod table;
pub mod uses;
