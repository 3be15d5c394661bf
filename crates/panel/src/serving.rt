//! The panel as a device.
ghost use Rattle.panel.specs.Meant.{panel_meaning};

use crate::Panel;
use device::Device;
use refusal::kinds::Fault;
use word::value::Word;

// The row of ports does it; these hand each call on, as Rust has no other way to forward a trait.
impl Device for Panel {
    ghost meaning = { panel_meaning };

    fn waiting(&self, port: u32) -> u32 {
        self.ports.waiting(port)
    }

    fn space(&self, port: u32) -> u32 {
        self.ports.space(port)
    }

    fn give(&mut self, port: u32) -> Result<Word, Fault> {
        self.ports.give(port)
    }

    fn take(&mut self, port: u32, word: Word) -> Result<(), Fault> {
        self.ports.take(port, word)
    }
}
