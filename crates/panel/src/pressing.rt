//! A new panel, and pressing.
ghost use Rattle.std.specs.Prelude.{◌≡◌};
ghost use Rattle.device.specs.Kept.{values};
ghost use Rattle.panel.specs.Meant.{panel_meaning, fresh_panel};
ghost use Rattle.panel.specs.Pressing.{press_answer, pressed};
ghost use Rattle.panel.specs.Stands.{PanelStands};

use crate::Panel;
use crate::port::PanelPort;
use arrayvec::ArrayVec;
use refusal::kinds::{Fault, Refusal};
use std::array;
use word::value::Word;

impl Panel {
    /// A panel where nothing waits and nothing was taken.
    pub fn new() -> Panel
        ensures { panel_meaning result ≡ fresh_panel }
    {
        Panel {
            ports: ArrayVec::from(array::from_fn(|_| PanelPort::new())),
        }
    }

    /// The words that `port` has taken, the last of them last.
    pub fn taken(&self, port: u32) -> &[Word]
        ensures { values result.now ≡ (panel_meaning self.now port).taken }
    {
        self.ports
            .as_slice()
            .get(port as usize)
            .map_or(&[], PanelPort::taken)
    }

    /// Lets `word` wait at `port`, behind the words that wait there. It is refused where the number is no word,
    /// and where the panel has no such port or eight words wait at it.
    pub fn press(&mut self, port: u32, word: u32) -> Result<(), Fault>
        ensures answer { result ≡ press_answer (panel_meaning self.old) port word }
        ensures after { panel_meaning self.new ≡ pressed (panel_meaning self.old) port word }
    {
        let word = Word::new(word).ok_or(Refusal::WordTooHigh.at(0))?;
        match self.ports.get_mut(port as usize) {
            Some(at) => at.press(word),
            None => Err(Refusal::NoPress.at(0)),
        }
    }
}

/// The panel serves the ports 0 to 7 alone, and a pressing does what is said of it.
pub fn panel_stands()
    ensures { PanelStands }
{}
