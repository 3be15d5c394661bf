//! The parts that were read so far.
ghost use Rattle.std.specs.Prelude.{◌≡◌, ◌≤◌};
ghost use Rattle.scan.specs.NameBytes.{name_bytes};

use circuit::parts::{Body, Item, Span};
use names::{Named, Placed, new_name};
use refusal::kinds::{Fault, Refusal};
use scan::names::Name;
use scan::reader::TextWord;
use word::value::Word;

/// How many memory words a drawing may have, and a memory of it.
pub const MOST_WORDS: usize = 4096;

/// How many items a drawing may have.
pub(crate) const MOST_ITEMS: usize = 2048;

/// A part's name in an expression, and the place of the field that it stands in.
#[derive(Clone, Copy, Debug, PartialEq, Eq)]
pub struct Reference {
    pub name: Name,
    pub place: usize,
}

/// A part, and the place of its name. Its expressions are spans of the draft's items, its cases and first words spans of the
/// draft's cases and words, so that it can be copied.
#[derive(Clone, Copy)]
pub struct Drafted {
    pub name: Name,
    pub place: usize,
    pub body: Body<Span, Span, Span>,
}

impl Named for Drafted {
    ghost label = { λ p. name_bytes p.name };

    fn name(&self) -> &[u8] {
        self.name.as_bytes()
    }
}

impl Placed for Drafted {
    ghost stands_at = { λ p. p.place };

    fn place(&self) -> usize {
        self.place
    }
}

/// How much is taken of what a drawing may have at most.
#[derive(Clone, Copy, Debug, PartialEq, Eq)]
pub struct Room {
    pub taken: usize,
    pub most: usize,
    ghost within: { taken ≤ most },
}

impl Room {
    ghost use Rattle.draft.specs.Rooms.{claimed, taken_after};

    /// Whether so much more can be taken. It is refused where that is over the most.
    pub fn check(&self, more: usize, place: usize) -> Result<(), Fault>
        ensures { result ≡ claimed self.now more place }
    {
        if more > self.most - self.taken {
            return Err(Refusal::OverLimit.at(place));
        }
        Ok(())
    }

    /// Takes so much more. It is refused where that is over the most.
    pub fn claim(&mut self, more: usize, place: usize) -> Result<(), Fault>
        ensures answer { result ≡ claimed self.old more place }
        ensures taken { self.new.taken ≡ taken_after self.old more }
        ensures most { self.new.most ≡ self.old.most }
    {
        self.check(more, place)?;
        self.taken += more;
        Ok(())
    }
}

/// The parts that were read so far with what they are made of, and how much was taken of what is limited.
#[derive(Drop)]
pub struct Draft {
    /// The parts in text order.
    pub parts: Vec<Drafted>,
    /// The items of all expressions.
    pub kept: Vec<Item<Name>>,
    /// The cases of all selectors, each a span of the items.
    pub cases: Vec<Span>,
    /// The first words of all memories.
    pub first: Vec<Word>,
    /// The names in all expressions, in text order.
    pub references: Vec<Reference>,
    /// How many items were taken.
    pub items: Room,
    /// How many memory words were taken.
    pub words: Room,
}

impl Draft {
    /// The name of one more part.
    pub fn name(&self, word: TextWord<'_>) -> Result<Name, Fault> {
        new_name(self.parts.as_slice(), word.text, word.place)
    }
}
