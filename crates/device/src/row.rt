//! A row of ports as a device.
ghost use Rattle.std.specs.Prelude.{◌≡◌, length};
ghost use Rattle.device.specs.Meaning.{Port as Meant, given_port, taken_port, gave, took};
ghost use Rattle.device.specs.Answers.{offered, admitted, valued};
ghost use Rattle.device.specs.Rows.{row};
ghost use Rattle.arrayvec.specs.ArrayVec.{array_vec_len};

use crate::Device;
use arrayvec::ArrayVec;
use refusal::kinds::{Fault, Refusal};
use word::value::Word;

/// One port of a device.
pub trait Port {
    /// What waits, what was taken, and the space left.
    ghost meaning: { Self → Meant };

    /// How many words wait.
    fn waiting(&self) -> u32
        ensures { result ≡ length (meaning self.now).waiting };

    /// How many words it can still take.
    fn space(&self) -> u32
        ensures { result ≡ (meaning self.now).space };

    /// Removes the first word that waits and answers it. It is refused where none waits.
    fn give(&mut self) -> Result<Word, Fault>
        ensures answer { valued result ≡ offered (meaning self.old).waiting }
        ensures after { meaning self.new ≡ given_port (meaning self.old) };

    /// Adds `word` to the end of what was taken. It is refused where there is no space.
    fn take(&mut self, word: Word) -> Result<(), Fault>
        ensures answer { result ≡ admitted (meaning self.old).space }
        ensures after { meaning self.new ≡ taken_port word.value (meaning self.old) };
}

/// Each port stands at its place, and past the end the ports are unserved. This is a vector and no array, since the
/// check takes no array of ports that borrow a text and hold a vector.
impl<P: Port, const N: usize> Device for ArrayVec<P, N> {
    ghost meaning = { λ ports. row P.Port.meaning ports.items };

    fn waiting(&self, port: u32) -> u32 {
        self.as_slice().get(port as usize).map_or(0, P::waiting)
    }

    fn space(&self, port: u32) -> u32 {
        self.as_slice().get(port as usize).map_or(0, P::space)
    }

    fn give(&mut self, port: u32) -> Result<Word, Fault>
        ensures answer { valued result ≡ offered (row P.Port.meaning self.old.items port).waiting }
        ensures after { row P.Port.meaning self.new.items ≡ gave (row P.Port.meaning self.old.items) port }
        ensures long { array_vec_len self.new ≡ array_vec_len self.old }
    {
        match self.get_mut(port as usize) {
            Some(at) => at.give(),
            None => Err(Refusal::NothingWaits.at(0)),
        }
    }

    fn take(&mut self, port: u32, word: Word) -> Result<(), Fault>
        ensures answer { result ≡ admitted (row P.Port.meaning self.old.items port).space }
        ensures after { row P.Port.meaning self.new.items ≡ took (row P.Port.meaning self.old.items) port word.value }
        ensures long { array_vec_len self.new ≡ array_vec_len self.old }
    {
        match self.get_mut(port as usize) {
            Some(at) => at.take(word),
            None => Err(Refusal::NoSpace.at(0)),
        }
    }
}
