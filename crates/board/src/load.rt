//! Loading a drawing onto the board.
use crate::boards::Board;
use circuit::parts::Body;
use circuit::wiring::Circuit;
use drawing::reading::read;
use ports::memory::Memory;
use refusal::kinds::Failure;
use std::alloc::{AllocError, Global};
use word::value::Word;

/// The memories of a circuit, by ascending rank, with their first words and no notes.
fn memories_of(heap: Global, circuit: &Circuit) -> Result<Vec<Memory>, AllocError> {
    let mut memories = Vec::new(heap);
    for (rank, part) in circuit.parts.iter().enumerate() {
        if let Body::Memory { first, .. } = &part.body {
            memories.push(Memory::new(heap, rank, first.as_slice())?)?;
        }
    }
    Ok(memories)
}

impl Board {
    /// A board newly made of a circuit: at cycle 0 with its first words, every held word 0, and no notes.
    fn of_circuit(heap: Global, circuit: Circuit) -> Result<Board, AllocError> {
        let mut shown = vec![in heap; Word::zero(); circuit.parts.len()]?;
        let memories = memories_of(heap, &circuit)?;
        circuit.settle(shown.as_mut_slice());
        Ok(Board {
            circuit,
            cycle: 0,
            shown,
            memories,
        })
    }

    /// Loads a drawing: answers the count of its parts and the byte place after its closing stop. If the drawing is
    /// refused, or the memory does not suffice, the board stays as it was.
    pub fn load(&mut self, heap: Global, text: &[u8]) -> Result<(usize, usize), Failure> {
        let drawing = read(heap, text)?;
        let end = drawing.end;
        let board = Board::of_circuit(heap, drawing.circuit)?;
        let count = board.circuit.parts.len();
        *self = board;
        Ok((count, end))
    }
}
