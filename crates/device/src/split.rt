//! A device whose ports are those of two others.
ghost use Rattle.std.specs.Prelude.{◌≡◌};
ghost use Rattle.device.specs.Layers.{joined};

use crate::Device;
use refusal::kinds::Fault;
use word::value::Word;

/// The ports under `at` are those of `low`, and the others those of `high`.
#[derive(Debug, PartialEq, Eq, Drop)]
pub struct Split<D, E> {
    pub at: u32,
    pub low: D,
    pub high: E,
}

impl<D, E> Split<D, E> {
    /// The device `low` for the ports under `at`, and `high` for the others.
    pub fn new(at: u32, low: D, high: E) -> Split<D, E>
        ensures at { result.at ≡ at }
        ensures low { result.low ≡ low }
        ensures high { result.high ≡ high }
    {
        Split { at, low, high }
    }
}

// Each method is one `if`; a closure for the call that differs would be longer.
impl<D: Device, E: Device> Device for Split<D, E> {
    ghost meaning = { λ s. joined s.at (D.Device.meaning s.low) (E.Device.meaning s.high) };

    fn waiting(&self, port: u32) -> u32 {
        if port < self.at {
            self.low.waiting(port)
        } else {
            self.high.waiting(port)
        }
    }

    fn space(&self, port: u32) -> u32 {
        if port < self.at {
            self.low.space(port)
        } else {
            self.high.space(port)
        }
    }

    fn give(&mut self, port: u32) -> Result<Word, Fault> {
        if port < self.at {
            self.low.give(port)
        } else {
            self.high.give(port)
        }
    }

    fn take(&mut self, port: u32, word: Word) -> Result<(), Fault> {
        if port < self.at {
            self.low.take(port, word)
        } else {
            self.high.take(port, word)
        }
    }
}
