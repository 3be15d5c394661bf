//! The words of a text, one after the other.
ghost use Rattle.std.specs.Prelude.{◌≡◌, ◌+◌, ◌≤◌, length};
ghost use Rattle.std.specs.Iterator.{item_count};
ghost use Rattle.scan.specs.Words.{cut, words_after, title_length, words};
ghost use Rattle.scan.specs.WordsStand.{WordsStand};
ghost use Rattle.scan.specs.Reading.{reader_text, left, word_of, HandsOut};

use super::{Reader, TextWord};
use crate::scanner::{Class, Scanner};

impl<'a> Reader<'a> {
    /// A reader that begins between words at the place `from`. A place past the text's end counts as the end.
    #[tactic(auto, using(crate::proofs::WordSteps::starts))]
    pub fn new(text: &'a [u8], from: usize) -> Reader<'a>
        ensures whole { reader_text result ≡ text.now }
        ensures left { left result ≡ words_after text.now from }
    {
        Reader {
            text,
            at: from.min(text.len()),
            scanner: Scanner::new(),
        }
    }

    /// The text that is read, whole.
    pub fn text(&self) -> &'a [u8]
        ensures { result.now ≡ reader_text self.now }
    {
        self.text
    }
}

impl<'a> Iterator for Reader<'a> {
    type Item = TextWord<'a>;

    ghost next_gives = { HandsOut };

    ghost remaining = { item_count left };

    /// The next word, or none where no more is left.
    fn next(&mut self) -> Option<TextWord<'a>> {
        // A loop over bytes: the next call goes on where it stops.
        while let Some(byte) = self.text.get(self.at) {
            let at = self.at;
            self.at += 1;
            if let Some(from) = self.scanner.pass(Class::from(*byte), at) {
                return Some(word_at(self.text, from, at));
            }
        }
        let from = self.scanner.finish()?;
        Some(word_at(self.text, from, self.at))
    }
}

/// The word of the text from one place up to another.
fn word_at(text: &[u8], from: usize, upto: usize) -> TextWord<'_>
    requires { (from ≤ upto) × (upto ≤ length text.now) }
    ensures word { word_of result ≡ cut text.now from upto }
    ensures within { result.place + length result.text.now ≤ length text.now }
{
    TextWord {
        text: &text[from..upto],
        place: from,
    }
}

/// Where the title ends: just after the first byte 10, or at the text's end where there is none.
pub fn title_end(text: &[u8]) -> usize
    ensures value { result ≡ title_length text.now }
    ensures within { result ≤ length text.now }
{
    match text.iter().position(|byte| *byte == b'\n') {
        Some(place) => place + 1,
        None => text.len(),
    }
}

/// A reader of the words of a drawing's text, which begin after the title.
pub fn drawing_words(text: &[u8]) -> Reader<'_>
    ensures whole { reader_text result ≡ text.now }
    ensures left { left result ≡ words text.now }
{
    Reader::new(text, title_end(text))
}

/// Carries the theorem on what the words of a text are.
#[tactic(auto, using(crate::proofs::WordsFound::words_stand))]
pub fn words_stand()
    ensures { WordsStand }
{}
