//! What a memory does in a step.
use word::value::Word;

/// What one memory does in a step. A place is one among its own words; a port is told by its address.
#[derive(Clone, Copy, Debug, PartialEq, Eq)]
pub enum Deed {
    /// It holds the word at a place.
    Read(usize),
    /// At a place it stores a word, and holds it.
    Write(usize, Word),
    /// It holds the word that a port gives.
    Give(Word),
    /// It lets a port take a word, the second, and holds it.
    Take(Word, Word),
}

/// A word that passes a port: which way it goes, and the port.
#[derive(Clone, Copy, Debug, PartialEq, Eq)]
pub(crate) enum Passage {
    /// The port gives it.
    Give(Word),
    /// The port takes it.
    Take(Word),
}

impl Deed {
    /// The passage over a port that the deed is, if it is one.
    pub(crate) fn passage(self) -> Option<Passage> {
        match self {
            Deed::Give(port) => Some(Passage::Give(port)),
            Deed::Take(port, _) => Some(Passage::Take(port)),
            Deed::Read(_) | Deed::Write(_, _) => None,
        }
    }
}
