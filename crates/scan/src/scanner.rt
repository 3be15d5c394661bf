//! How each byte of a text moves a scan on: what parts words, and what is a comment.
ghost use Rattle.std.specs.Prelude.{◌≡◌};
ghost use Rattle.scan.specs.Words.{between, after, class_of};
ghost use Rattle.scan.specs.Scanning.{where_of, ends, ends_last};

use std::mem;

/// What a byte is to the scan.
#[derive(Clone, Copy, Debug, PartialEq, Eq)]
pub enum Class {
    /// A tab, a line feed, a carriage return or a space, which part words.
    Blank,
    /// `{`, which begins a comment.
    Open,
    /// `}`, which ends a comment, and outside of one is a byte of a word.
    Close,
    /// Any other byte, which belongs to a word.
    Other,
}

impl From<u8> for Class {
    ghost from_gives = { λ b r. r ≡ class_of b };

    fn from(byte: u8) -> Class {
        match byte {
            b'\t' | b'\n' | b'\r' | b' ' => Class::Blank,
            b'{' => Class::Open,
            b'}' => Class::Close,
            _ => Class::Other,
        }
    }
}

/// Where a scan stands.
#[derive(Clone, Copy, Debug, PartialEq, Eq)]
pub(crate) enum State {
    /// Between words.
    Between,
    /// In the word that began at this place.
    InWord(usize),
    /// In a comment.
    InComment,
}

/// A scan of a text, which is told of each byte in turn.
#[derive(Clone, Copy, Debug, PartialEq, Eq)]
pub(crate) struct Scanner {
    state: State,
}

impl Scanner {
    /// A scan that begins between words.
    pub(crate) fn new() -> Scanner
        ensures { where_of result.state ≡ between }
    {
        Scanner {
            state: State::Between,
        }
    }

    /// Passes the byte of this class that stands at the place `at`. Answers where the word began that the byte ends.
    pub(crate) fn pass(&mut self, class: Class, at: usize) -> Option<usize>
        ensures moves { where_of self.new.state ≡ after (where_of self.old.state) class at }
        ensures answers { result ≡ ends (where_of self.old.state) class }
    {
        match (self.state, class) {
            (State::Between, Class::Close | Class::Other) => {
                self.state = State::InWord(at);
                None
            }
            (State::Between, Class::Open) => {
                self.state = State::InComment;
                None
            }
            (State::InWord(from), Class::Blank) => {
                self.state = State::Between;
                Some(from)
            }
            (State::InWord(from), Class::Open) => {
                self.state = State::InComment;
                Some(from)
            }
            (State::InComment, Class::Close) => {
                self.state = State::Between;
                None
            }
            (State::Between, Class::Blank)
            | (State::InWord(_), Class::Close | Class::Other)
            | (State::InComment, _) => None,
        }
    }

    /// Comes to the text's end. Answers where the word began that ends there.
    pub(crate) fn finish(&mut self) -> Option<usize>
        ensures moves { where_of self.new.state ≡ between }
        ensures answers { result ≡ ends_last (where_of self.old.state) }
    {
        match mem::replace(&mut self.state, State::Between) {
            State::InWord(from) => Some(from),
            State::Between | State::InComment => None,
        }
    }
}
