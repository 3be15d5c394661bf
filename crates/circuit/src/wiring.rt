//! The circuit of a drawing.
ghost use Rattle.std.specs.Prelude.{◌≡◌};
ghost use Rattle.circuit.specs.Rows.{row};

use crate::parts::{Listed, Part, Span};
use std::alloc::Global;

/// The listed names in list order, and the parts by rank.
#[derive(Drop)]
pub struct Circuit {
    /// The names of the list, in its order.
    pub listed: Vec<Listed>,
    /// The parts by rank.
    pub parts: Vec<Part>,
    /// The ranks in an order in which each ALU and selector comes after all that it reads.
    pub order: Vec<usize>,
}

impl Circuit {
    /// A circuit of no parts.
    pub fn empty(heap: Global) -> Circuit {
        Circuit {
            listed: Vec::new(heap),
            parts: Vec::new(heap),
            order: Vec::new(heap),
        }
    }
}

/// What a span marks in a list, as far as the list goes.
pub fn marked<T>(all: &[T], at: Span) -> &[T]
    ensures { result.now ≡ row all.now at }
{
    let end = at.end.min(all.len());
    let start = at.start.min(end);
    &all[start..end]
}
