//! Cuts a text into words with their places, and reads the names among them.
#![tactic(auto)]

pub mod bytes;
pub mod names;
pub mod reader;
pub mod scanner;
