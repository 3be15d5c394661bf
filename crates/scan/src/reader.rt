//! A text that is read word by word.
ghost use Rattle.std.specs.Prelude.{◌≤◌, length};
ghost use Rattle.scan.specs.Scanning.{where_of, word_start};

use crate::scanner::Scanner;

pub mod reads;

/// A word of a text.
#[derive(Clone, Copy, Debug, PartialEq, Eq)]
pub struct TextWord<'a> {
    /// The word's bytes, a piece of the text.
    pub text: &'a [u8],
    /// Where the word begins in the text, in bytes from 0.
    pub place: usize,
}

/// A text, read up to the place `at`.
#[derive(Debug, Drop)]
pub struct Reader<'a> {
    text: &'a [u8],
    at: usize,
    scanner: Scanner,
    ghost within: { at ≤ length text.now },
    ghost began: { word_start (where_of scanner.state) ≤ at },
}
