//! One port of the panel.
ghost use Rattle.std.specs.Prelude.{◌≡◌};
ghost use Rattle.device.specs.Kept.{values};
ghost use Rattle.panel.specs.Meant.{port_meaning, fresh};
ghost use Rattle.panel.specs.Pressing.{let_in, pressed_port};

use arrayvec::ArrayVec;
use device::row::Port;
use device::taken::Taken;
use refusal::kinds::{Fault, Refusal};
use word::value::Word;

/// The words pressed that still wait, the first of them first, and the words taken.
#[derive(Clone, Debug, PartialEq, Eq, Drop)]
pub(crate) struct PanelPort {
    pressed: ArrayVec<Word, 8>,
    taken: Taken<8>,
}

impl PanelPort {
    /// A port where nothing waits and nothing was taken.
    pub(crate) fn new() -> PanelPort
        ensures { port_meaning result ≡ fresh }
    {
        PanelPort {
            pressed: ArrayVec::new(),
            taken: Taken::new(),
        }
    }

    /// The words taken, the last of them last.
    pub(crate) fn taken(&self) -> &[Word]
        ensures { values result.now ≡ (port_meaning self.now).taken }
    {
        self.taken.words()
    }

    /// Lets `word` wait behind the others. It is refused where eight wait.
    pub(crate) fn press(&mut self, word: Word) -> Result<(), Fault>
        ensures answer { result ≡ let_in (port_meaning self.old).waiting }
        ensures after { port_meaning self.new ≡ pressed_port word.value (port_meaning self.old) }
    {
        self.pressed
            .try_push(word)
            .map_err(|_| Refusal::NoPress.at(0))
    }
}

impl Port for PanelPort {
    ghost meaning = { port_meaning };

    fn waiting(&self) -> u32 {
        self.pressed.len() as u32
    }

    fn space(&self) -> u32 {
        self.taken.space() as u32
    }

    fn give(&mut self) -> Result<Word, Fault> {
        self.pressed.pop_at(0).ok_or(Refusal::NothingWaits.at(0))
    }

    fn take(&mut self, word: Word) -> Result<(), Fault> {
        self.taken.push(word)
    }
}
