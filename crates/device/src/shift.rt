//! A device whose ports are those of another, further on.
ghost use Rattle.std.specs.Prelude.{◌≡◌};
ghost use Rattle.device.specs.Layers.{shifted};

use crate::Device;
use refusal::kinds::{Fault, Refusal};
use word::value::Word;

/// Port p is port p - `by` of the device below, and the ports under `by` are unserved.
#[derive(Debug, PartialEq, Eq, Drop)]
pub struct Shift<D> {
    pub by: u32,
    pub below: D,
}

impl<D> Shift<D> {
    /// The device `below`, its ports `by` further on.
    pub fn new(by: u32, below: D) -> Shift<D>
        ensures by { result.by ≡ by }
        ensures below { result.below ≡ below }
    {
        Shift { by, below }
    }
}

// Each method takes `by` from the port and hands the call on; a closure for the call that differs would be longer.
impl<D: Device> Device for Shift<D> {
    ghost meaning = { λ s. shifted s.by (D.Device.meaning s.below) };

    fn waiting(&self, port: u32) -> u32 {
        port.checked_sub(self.by)
            .map_or(0, |below| self.below.waiting(below))
    }

    fn space(&self, port: u32) -> u32 {
        port.checked_sub(self.by)
            .map_or(0, |below| self.below.space(below))
    }

    fn give(&mut self, port: u32) -> Result<Word, Fault> {
        let below = port
            .checked_sub(self.by)
            .ok_or(Refusal::NothingWaits.at(0))?;
        self.below.give(below)
    }

    fn take(&mut self, port: u32, word: Word) -> Result<(), Fault> {
        let below = port.checked_sub(self.by).ok_or(Refusal::NoSpace.at(0))?;
        self.below.take(below, word)
    }
}
