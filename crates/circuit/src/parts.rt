//! What a circuit is made of.
ghost use Rattle.std.specs.Prelude.{◌≡◌};
ghost use Rattle.circuit.specs.Meaning.{listed};

use crate::wiring::marked;
use scan::names::Name;
use std::slice;
use word::range::Range;
use word::value::Word;
use word::width::Width;

/// One item of an expression. Parts are told by `R`: by name in a text, by rank on a board.
#[derive(Clone, Copy, Debug, PartialEq, Eq)]
pub enum Item<R> {
    /// A constant of some bits.
    Constant(Word, Width),
    /// A range of the bits that a part shows.
    Bits(R, Range),
}

/// Neighbours in a list: those from `start` up to `end`, which is left out.
#[derive(Clone, Copy, Debug, PartialEq, Eq)]
pub struct Span {
    pub start: usize,
    pub end: usize,
}

/// An expression on a board. Most have one item; the items of another are a span of those that its part joins.
#[derive(Clone, Copy, Debug, PartialEq, Eq)]
pub enum Expression {
    One(Item<usize>),
    More(Span),
}

impl Expression {
    /// The items, the highest first, in a part that joins these.
    pub fn items<'p>(&'p self, joined: &'p [Item<usize>]) -> &'p [Item<usize>]
        ensures { result.now ≡ listed joined.now self.now }
    {
        match self {
            Expression::One(item) => slice::from_ref(item),
            Expression::More(span) => marked(joined, *span),
        }
    }
}

/// What a part is. Its expressions are of the type `E`, a selector's cases of `C` and a memory's first words of `W`. It owns lists
/// of cases and words where nothing else is said, and can be copied where all three can.
#[derive(Clone, Copy, Drop)]
pub enum Body<E, C = Vec<E>, W = Vec<Word>> {
    /// A memory, with its first words.
    Memory {
        address: E,
        data: E,
        operation: E,
        first: W,
    },
    /// An ALU.
    Alu {
        function: E,
        left: E,
        right: E,
    },
    /// A selector, with its cases.
    Selector {
        select: E,
        cases: C,
    },
}

/// A part on a board.
#[derive(Drop)]
pub struct Part {
    pub name: Name,
    /// The items of the expressions that have several.
    pub joined: Vec<Item<usize>>,
    pub body: Body<Expression>,
}

/// A name of the drawing's list.
#[derive(Clone, Copy, Debug, PartialEq, Eq)]
pub struct Listed {
    /// The rank of the part of this name.
    pub rank: usize,
    /// Whether the part's value stands in the trace.
    pub traced: bool,
}
