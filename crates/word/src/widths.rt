//! The low bits of words, and words put behind others.
ghost use Rattle.std.specs.Prelude.{◌≡◌, ◌-◌, ◌%◌, ◌^◌, ◌<◌, ◌⊎◌, MatchOption};
ghost use Rattle.word.specs.Places.{low_bits, behind};

use crate::value::Word;
use crate::width::Width;

impl Width {
    /// The width of as many bits, unless that is 0 or above 31.
    pub fn new(bits: u32) -> Option<Width>
        ensures { MatchOption result ((bits ≡ 0) ⊎ (31 < bits)) (λ w. w.bits ≡ bits) }
    {
        if 0 < bits && bits <= 31 {
            Some(Width { bits })
        } else {
            None
        }
    }

    /// The number in which the low bits are 1, as many as the width says, and no other bit is.
    fn mask(self) -> u32
        ensures { result ≡ 2 ^ self.bits - 1 }
    {
        (1 << self.bits) - 1
    }

    /// The low bits of a word, as many as the width says.
    pub fn low(self, word: Word) -> Word
        ensures { result.value ≡ low_bits self.bits word.value }
    {
        Word {
            value: word.value & self.mask(),
        }
    }
}

/// Puts the low bits of an item behind those that are there, and keeps the low 31 bits of all.
pub fn place(joined: Word, width: Width, item: Word) -> Word
    ensures low { result.value ≡ behind joined.value width.bits (low_bits width.bits item.value) % 2 ^ 31 }
    ensures whole { item.value < 2 ^ width.bits → behind joined.value width.bits item.value < 2 ^ 31 → result.value ≡ behind joined.value width.bits item.value }
{
    Word::low((joined.value << width.bits) | width.low(item).value)
}
