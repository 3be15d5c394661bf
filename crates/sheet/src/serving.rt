//! The sheet as a device.
ghost use Rattle.sheet.specs.Meant.{sheet_meaning};

use crate::Sheet;
use device::Device;
use refusal::kinds::Fault;
use word::value::Word;

// The row of ports does it; these hand each call on, as Rust has no other way to forward a trait.
impl<'t> Device for Sheet<'t> {
    ghost meaning = { sheet_meaning };

    fn waiting(&self, port: u32) -> u32 {
        self.slots.waiting(port)
    }

    fn space(&self, port: u32) -> u32 {
        self.slots.space(port)
    }

    fn give(&mut self, port: u32) -> Result<Word, Fault> {
        self.slots.give(port)
    }

    fn take(&mut self, port: u32, word: Word) -> Result<(), Fault> {
        self.slots.take(port, word)
    }
}
