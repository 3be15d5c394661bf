//! The bits of a word in a range.
ghost use Rattle.std.specs.Prelude.{◌≡◌, ◌<◌, ◌⊎◌, MatchOption};
ghost use Rattle.word.specs.Places.{width_of, bits_of};

use crate::range::Range;
use crate::value::Word;
use crate::width::Width;

impl Range {
    /// The range of the bits from `first` through `last`, unless `last` comes before `first` or is above 30.
    pub fn new(first: u32, last: u32) -> Option<Range>
        ensures { MatchOption result ((last < first) ⊎ (30 < last)) (λ s. (s.first ≡ first) × (s.last ≡ last)) }
    {
        if first <= last && last <= 30 {
            Some(Range { first, last })
        } else {
            None
        }
    }

    /// How many bits the range has.
    pub fn width(self) -> Width
        ensures { result.bits ≡ width_of self.first self.last }
    {
        Width {
            bits: self.last - self.first + 1,
        }
    }

    /// The bits of a word in the range, the first of them moved to bit 0.
    pub fn take(self, word: Word) -> Word
        ensures { result.value ≡ bits_of self.first self.last word.value }
    {
        self.width().low(Word {
            value: word.value >> self.first,
        })
    }
}
