//! Judging a run sheet.
ghost use Rattle.std.specs.Prelude.{◌≡◌, length};
ghost use Rattle.scan.specs.Reading.{left, reader_text, word_of};
ghost use Rattle.device.specs.Answers.{valued};
ghost use Rattle.sheet.specs.Sheets.{number_of, pairs};
ghost use Rattle.sheet.specs.Nexts.{HandsOver};
ghost use Rattle.sheet.specs.Judged.{asked, verdict};

use crate::short::ShortText;
use numbers::number;
use refusal::kinds::{Fault, Refusal};
use scan::reader::{Reader, TextWord};
use word::value::Word;
use word::words::LARGEST;

/// The most cycles that a sheet may ask for.
const MOST_CYCLES: u32 = 100_000;

/// The last port.
const LAST_PORT: u32 = 15;

/// What a run sheet asks for.
#[derive(Clone, Copy, Debug, PartialEq, Eq)]
pub struct Run {
    /// How many cycles to run.
    pub cycles: u32,
    /// Where the pairs of port and word begin, in bytes from the text's start.
    pub pairs: usize,
}

/// The next word of the sheet's text, which must be there.
fn next_word<'t>(reader: &mut Reader<'t>) -> Result<TextWord<'t>, Fault>
    ensures { HandsOver reader.old result reader.new }
{
    reader
        .next()
        .ok_or(Refusal::BadSheet.at(reader.text().len()))
}

/// The number that a word of the sheet is, which must be at most `most`.
fn limited(word: TextWord<'_>, most: u32) -> Result<Word, Fault>
    ensures { valued result ≡ number_of most (word_of word.entry) }
{
    number(word.text, word.place)
        .ok()
        .filter(|said| said.value <= most)
        .ok_or(Refusal::BadSheet.at(word.place))
}

/// Judges all that the reader has left as pairs of port and word.
#[tactic(auto, using(crate::proofs::Steps::both_good))]
fn check_pairs(mut reader: Reader<'_>) -> Result<(), Fault>
    ensures { result ≡ pairs (length (reader_text reader.entry)) (left reader.entry) }
{
    // Each turn takes two words, so no `for` over the reader will do.
    while let Some(port) = reader.next() {
        limited(port, LAST_PORT)?;
        limited(next_word(&mut reader)?, LARGEST)?;
    }
    Ok(())
}

/// Judges the run sheet that stands in `text` from the place `from` on: a count of cycles, and then pairs of port and
/// word. It is refused at the first word that is no number or out of range, and at the text's end where a word is
/// missing. A text of 4 GiB or more is too long, since the words for a port could not be counted.
pub fn judge(text: &[u8], from: usize) -> Result<Run, Fault>
    ensures { asked text.now result ≡ verdict text.now from }
{
    let short = ShortText::new(text).ok_or(Refusal::TextTooLong.at(0))?;
    let mut reader = Reader::new(short.bytes, from);
    let count = next_word(&mut reader)?;
    let cycles = limited(count, MOST_CYCLES)?;
    check_pairs(reader)?;
    Ok(Run {
        cycles: cycles.value,
        pairs: count.place + count.text.len(),
    })
}
