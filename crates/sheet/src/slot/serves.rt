//! The start of a port of the sheet, and what it answers.
ghost use Rattle.std.specs.Prelude.{◌≡◌};
ghost use Rattle.scan.specs.Words.{words_after};
ghost use Rattle.device.specs.Kept.{kept};
ghost use Rattle.sheet.specs.Slots.{slot_meaning, fresh};

use crate::pairs::{Waiting, count};
use crate::short::ShortText;
use crate::slot::Slot;
use device::row::Port;
use device::taken::Taken;
use refusal::kinds::{Fault, Refusal};
use word::value::Word;

impl<'t> Slot<'t> {
    /// The port of this number, where all that the text has for it from the place `from` on waits.
    pub(crate) fn new(text: ShortText<'t>, from: usize, port: u32) -> Slot<'t>
        ensures { slot_meaning result ≡ fresh (words_after text.entry.bytes.now from) port }
    {
        Slot {
            words: Waiting::new(text.bytes, from, port),
            waiting: count(text, from, port),
            taken: Taken::new(),
        }
    }

    /// The words taken, the last of them last.
    pub(crate) fn taken(&self) -> Taken<16>
        ensures { kept 16 result ≡ (slot_meaning self.now).taken }
    {
        self.taken.copied()
    }
}

impl<'t> Port for Slot<'t> {
    ghost meaning = { slot_meaning };

    fn waiting(&self) -> u32 {
        self.waiting
    }

    fn space(&self) -> u32 {
        self.taken.space() as u32
    }

    fn give(&mut self) -> Result<Word, Fault> {
        let word = self.words.next().ok_or(Refusal::NothingWaits.at(0))?;
        self.waiting -= 1;
        Ok(word)
    }

    fn take(&mut self, word: Word) -> Result<(), Fault> {
        self.taken.push(word)
    }
}
