//! Making words.
ghost use Rattle.std.specs.Prelude.{◌≡◌, ◌%◌, ◌^◌, ◌≤◌, MatchOption};

use crate::value::Word;

/// The largest value of a word, in which each of the 31 bits is 1.
pub const LARGEST: u32 = 0x7fff_ffff;

impl Word {
    /// The word of a value, unless that is 2 to the power 31 or more.
    pub fn new(value: u32) -> Option<Word>
        ensures { MatchOption result (2 ^ 31 ≤ value) (λ w. w.value ≡ value) }
    {
        if value <= LARGEST {
            Some(Word { value })
        } else {
            None
        }
    }

    /// The word 0.
    pub fn zero() -> Word
        ensures { result.value ≡ 0 }
    {
        Word { value: 0 }
    }

    /// The word of a value modulo 2 to the power 31.
    pub fn low(value: u32) -> Word
        ensures { result.value ≡ value % 2 ^ 31 }
    {
        Word {
            value: value & LARGEST,
        }
    }
}

/// The word 0. By hand, since a type with an invariant derives no default.
impl Default for Word {
    ghost is_default = { λ word. word.value ≡ 0 };

    fn default() -> Word {
        Word::zero()
    }
}
