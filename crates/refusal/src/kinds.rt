//! The refusals by name.

/// What went wrong. Those of a drawing's text come first, then those of a call at the bench,
/// those of a step of the board, and those of a port.
#[derive(Clone, Copy, Debug, PartialEq, Eq)]
pub enum Refusal {
    /// The text has more than 131,072 bytes.
    TextTooLong,
    /// A word is malformed, or may not stand where it stands.
    Malformed,
    /// The text ends before the drawing does.
    TextEnds,
    /// A number or a term is over 2,147,483,647.
    NumberTooLarge,
    /// A width, a bit, the order of two bits or a size is outside its range, or a selector has no case.
    OutOfRange,
    /// An expression has more than 31 bits.
    TooWide,
    /// Another limit is passed: of names, parts, cases, items, memory words or a field's bytes.
    OverLimit,
    /// A name stands twice among the macros, in the list or among the parts.
    NameTwice,
    /// A macro is used that is not defined.
    UnknownMacro,
    /// Macros use each other in a circle.
    MacroCircle,
    /// A name is listed, and no part has it.
    ListedWithoutPart,
    /// A part's name is not listed.
    PartNotListed,
    /// An expression names a part that is not there.
    NoSuchPart,
    /// ALUs and selectors read each other in a circle.
    PartCircle,
    /// No part has the name.
    UnknownName,
    /// No part has the rank, or it is no memory.
    NoSuchRank,
    /// The memory has no such place.
    PlaceTooHigh,
    /// The number is over 2,147,483,647, so it is no word.
    WordTooHigh,
    /// The buffer is too short for what is to be written, which has this length.
    BufferShort(usize),
    /// The run is over 100,000 steps.
    RunTooLong,
    /// A word of the run sheet is no number, is out of range or is missing.
    BadSheet,
    /// The panel has no such port, or eight words wait there.
    NoPress,
    /// The board has reached cycle 9,999,999.
    LastCycle,
    /// A selector has no case of the number that its select field gives.
    Astray,
    /// A memory's address is past its last word.
    AddressPast,
    /// A port is asked for a word, and none waits there.
    NothingWaits,
    /// A port is to take a word, and has no space.
    NoSpace,
}

/// A refusal and its place: a byte of the text, a rank of the board, or 0.
#[derive(Clone, Copy, Debug, PartialEq, Eq)]
pub struct Fault {
    pub refusal: Refusal,
    pub place: usize,
}

/// Why something that takes memory was not done.
#[derive(Clone, Copy, Debug, PartialEq, Eq)]
pub enum Failure {
    /// It is refused.
    Refused(Fault),
    /// The memory did not suffice, which says nothing of what was asked.
    NoMemory,
}
