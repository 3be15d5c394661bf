//! Devices: ports that give words and take words, and devices made of other devices.
#![tactic(auto)]

ghost use Rattle.std.specs.Prelude.{◌≡◌, length};
ghost use Rattle.device.specs.Meaning.{Meaning, gave, took};
ghost use Rattle.device.specs.Answers.{offered, admitted, valued};
ghost use Rattle.device.specs.Stands.{Stands};
ghost use Rattle.device.specs.Layered.{LayersStand};
ghost use Rattle.device.specs.Alike.{StayAlike};

pub mod row;
pub mod shift;
pub mod split;
pub mod taken;

use refusal::kinds::Fault;
use word::value::Word;

/// What a board is wired to. A device is known by its meaning: for each port the words that wait to be given, the
/// words taken so far, and the space, which is how many words the port can still take.
pub trait Device {
    /// At each port what waits, what was taken, and the space left.
    ghost meaning: { Self → Meaning };

    /// How many words wait at `port`.
    fn waiting(&self, port: u32) -> u32
        ensures { result ≡ length (meaning self.now port).waiting };

    /// How many words `port` can still take.
    fn space(&self, port: u32) -> u32
        ensures { result ≡ (meaning self.now port).space };

    /// Removes the first word that waits at `port` and answers it. It is refused where none waits.
    fn give(&mut self, port: u32) -> Result<Word, Fault>
        ensures answer { valued result ≡ offered (meaning self.old port).waiting }
        ensures after { meaning self.new ≡ gave (meaning self.old) port };

    /// Adds `word` to the end of what `port` has taken. It is refused where the port has no space.
    fn take(&mut self, port: u32, word: Word) -> Result<(), Fault>
        ensures answer { result ≡ admitted (meaning self.old port).space }
        ensures after { meaning self.new ≡ took (meaning self.old) port word.value };
}

/// Giving and taking alter what they are said to alter, and nothing else.
pub fn changes_stand()
    ensures { Stands }
{}

/// Shift and split send each port to the device that is to serve it, and alter no other.
pub fn layers_stand()
    ensures { LayersStand }
{}

/// Devices of equal meaning answer alike and stay of equal meaning, by themselves and under shift and split.
pub fn alike_stand()
    ensures { StayAlike }
{}
