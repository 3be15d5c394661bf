//! The words that the pairs of a run sheet have for one port.
ghost use Rattle.std.specs.Prelude.{◌≡◌, length};
ghost use Rattle.std.specs.Iterator.{YieldsFirstBy, item_count};
ghost use Rattle.std.specs.Option.{option_map};
ghost use Rattle.scan.specs.Words.{words_after};
ghost use Rattle.numbers.specs.Numbers.{number};
ghost use Rattle.sheet.specs.Waiting.{sent, waiting_at};
ghost use Rattle.sheet.specs.Waits.{waits};

use crate::short::ShortText;
use numbers::number;
use scan::reader::{Reader, TextWord};
use word::value::Word;

/// The words for a port among the pairs of port and word that the reader has left.
#[derive(Debug, Drop)]
pub(crate) struct Waiting<'t> {
    reader: Reader<'t>,
    port: u32,
}

impl<'t> Waiting<'t> {
    /// The words for `port` among the pairs that stand in the text from the place `from` on.
    pub(crate) fn new(text: &'t [u8], from: usize, port: u32) -> Waiting<'t>
        ensures { waits result ≡ waiting_at port (words_after text.now from) }
    {
        Waiting {
            reader: Reader::new(text, from),
            port,
        }
    }
}

/// The word of a pair, if the pair is for `port`.
fn sent(to: TextWord<'_>, word: TextWord<'_>, port: u32) -> Option<Word>
    ensures { option_map (λ w. w.value) result ≡ sent port (number to.entry.text.now) (number word.entry.text.now) }
{
    let to = number(to.text, to.place).ok()?;
    if to.value == port {
        number(word.text, word.place).ok()
    } else {
        None
    }
}

impl<'t> Iterator for Waiting<'t> {
    type Item = Word;

    ghost next_gives = { YieldsFirstBy (λ w. w.value) waits };

    ghost remaining = { item_count waits };

    /// The next word for the port, if one is left.
    fn next(&mut self) -> Option<Word> {
        // A loop, since each step takes two words: no chain's proof goes through a closure that moves the reader on
        while let Some(to) = self.reader.next() {
            let second = self.reader.next()?;
            if let Some(word) = sent(to, second, self.port) {
                return Some(word);
            }
        }
        None
    }
}

/// How many words the pairs from the place `from` on have for `port`.
#[tactic(auto, using(crate::proofs::Bounds::fits))]
pub(crate) fn count(text: ShortText<'_>, from: usize, port: u32) -> u32
    ensures { result ≡ length (waiting_at port (words_after text.entry.bytes.now from)) }
{
    Waiting::new(text.bytes, from, port).count() as u32
}
