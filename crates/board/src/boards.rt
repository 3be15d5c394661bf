//! The board as it stands between two calls.
use circuit::wiring::Circuit;
use ports::memory::Memory;
use std::alloc::Global;
use word::value::Word;

/// A circuit, the cycle number, what its parts show, and its memories.
#[derive(Drop)]
pub struct Board {
    pub(crate) circuit: Circuit,
    pub(crate) cycle: u32,
    /// By rank the value that a part shows, which is the word that it holds if it is a memory.
    pub(crate) shown: Vec<Word>,
    /// The memories, by ascending rank.
    pub(crate) memories: Vec<Memory>,
}

impl Board {
    /// A board of no parts, at cycle 0.
    pub fn new(heap: Global) -> Board {
        Board {
            circuit: Circuit::empty(heap),
            cycle: 0,
            shown: Vec::new(heap),
            memories: Vec::new(heap),
        }
    }
}
